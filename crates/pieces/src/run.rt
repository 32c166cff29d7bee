// The loop of every program over lines: read, call, write, while it goes on. Nothing here decides anything about lines.
ghost use Rattle.std.specs.Prelude.{◌+◌, ◌≤◌, length, IfOk};
ghost use Rattle.pieces.specs.Run.{RanToTheEnd};
ghost use Rattle.pieces.specs.Step.{program_of};

use crate::reading::{Lost, Source};
use crate::step::{Program, Progress};
use crate::writing::Target;
use crate::{reading, step, writing};
use std::io::{Read, Write};

// Reads pieces of at most the buffer's length, each answered before the next one, so that a live input is answered as it comes. Where the
// last of the output cannot be written, the run did not end.
pub fn run<P: Program, R: Read, W: Write, E: Write>(
    begun: P::State,
    input: &mut Source<R, E>,
    output: &mut Target<W, E>,
    buffer: &mut [u8],
) -> Result<P::State, Lost>
    requires { P.limits.Sound begun × (P.MOST + P.MOST ≤ 65536) }
    ensures { IfOk result (λ last. RanToTheEnd (program_of P.letters) begun (R.remaining input.old.input) (R.remaining input.new.input) (W.contents output.old.output) (W.contents output.new.output) (length buffer.old) last) }
{
    let mut line = [0; 2048];
    let mut out = [0; 65536];
    let mut progress = Progress {
        state: begun,
        had: 0,
        waiting: 0,
        at: 0,
    };
    let mut count = 0;
    loop {
        let piece = reading::refill(input, buffer, count, progress.at)?;
        count = piece.count;
        progress.at = piece.at;
        progress = step::take_piece::<P>(&buffer[..count], &mut line, &mut out, progress);
        writing::write(output, &out[..progress.waiting])?;
        progress.waiting = 0;
        if reading::stops(count, P::is_over(&progress.state)) {
            break;
        }
    }
    let ended = step::end::<P>(&line, &mut out, progress);
    writing::write(output, &out[..ended.waiting])?;
    Ok(ended.state)
}
