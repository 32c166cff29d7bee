// The loop of the squares.
ghost use Rattle.std.specs.Prelude.{◌≡◌, ◌⊎◌, length};
ghost use Rattle.reels.specs.declared.reel.ReelPhase.TheVariants.{FirstRun};
ghost use Rattle.reel_stream.specs.Run.{Finished, EndedAs};

use crate::piece::Squares;
use pieces::reading::Source;
use pieces::writing::Target;
use pieces::{run, writing};
use reel_page::page;
use reels::reel;
use reels::reel::ReelPhase;
use std::io::{Read, Write};

// The phase that the reel came to, or `FirstRun` where reading or writing failed.
pub fn run<R: Read, W: Write, E: Write>(
    input: &mut Source<R, E>,
    output: &mut Target<W, E>,
    buffer: &mut [u8],
) -> ReelPhase
    ensures ended { EndedAs result }
    ensures finished { (result ≡ FirstRun) ⊎ Finished (R.remaining input.old.input) (R.remaining input.new.input) (W.contents output.old.output) (W.contents output.new.output) (length buffer.old) result }
{
    match run::run::<Squares, R, W, E>(reel::begin(), input, output, buffer) {
        Ok(last) => last.phase,
        Err(_) => ReelPhase::FirstRun,
    }
}

// A refusal's line on standard error, for whoever keeps standard output.
pub fn tell<E: Write>(phase: ReelPhase, errors: &mut E) {
    let mut text = [0u8; 71];
    let n = page::refusal(phase, &mut text, 0);
    writing::put(errors, &text[..n]);
}
