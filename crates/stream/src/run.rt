// The loop of the text programs.
ghost use Rattle.std.specs.Prelude.{◌≡◌, ◌⊎◌, length};
ghost use Rattle.feeding.specs.declared.session.Ending.TheVariants.{Open};
ghost use Rattle.stream.specs.Run.{Finished, EndedAs};

use feeding::session::Ending;
use pieces::reading::Source;
use pieces::writing::Target;
use pieces::{run, writing};
use std::io::{Read, Write};
use text_pieces::piece::Text;
use text_pieces::session;
use text_runs::state::Way;
use text_state::ending;

// How the run ended, or `Open` where reading or writing failed.
pub fn run<R: Read, W: Write, E: Write>(
    way: Way,
    input: &mut Source<R, E>,
    output: &mut Target<W, E>,
    buffer: &mut [u8],
) -> Ending
    ensures ended { EndedAs way result }
    ensures finished { (result ≡ Open) ⊎ Finished way (R.remaining input.old.input) (R.remaining input.new.input) (W.contents output.old.output) (W.contents output.new.output) (length buffer.old) result }
{
    match run::run::<Text, R, W, E>(session::begin(way), input, output, buffer) {
        Ok(last) => last.ending,
        Err(_) => Ending::Open,
    }
}

// A refusal's line on standard error, for whoever keeps standard output.
pub fn tell<E: Write>(ending: Ending, errors: &mut E) {
    let mut text = [0u8; 64];
    let n = ending::refusal_line(ending, &mut text);
    writing::put(errors, &text[..n]);
}
