// How a text run ended, told by the last line printed.
ghost use Rattle.std.specs.Prelude.{◌≡◌, ◌≤◌, length};
ghost use Rattle.decimal.specs.Own.Put.{Put};
ghost use Rattle.text_runs.specs.Lines.{numbers_in};
ghost use Rattle.feeding.specs.Ending.{refused_by, last_said, ending_after, ending_line};

use crate::lines;
use decimal::{print, read, search};
use feeding::session::Ending;
use text_runs::state;
use text_runs::state::State;

// What the numbers of a line say, once it begins as a refusal.
fn refused_by(line: &[u8]) -> Ending
    requires { length line.now ≤ 2048 }
    ensures { result ≡ refused_by (numbers_in line.now) }
{
    let mut numbers = [0i32; 1024];
    match read::numbers(line, &mut numbers) {
        Some(3) => Ending::Refused(numbers[0], numbers[1], numbers[2]),
        _ => Ending::Whole,
    }
}

fn last_said(text: &[u8]) -> Ending
    requires { length text.now ≤ 2048 }
    ensures { result ≡ last_said text.now }
{
    let Some(rest) = text.strip_prefix(b"refused,") else {
        return Ending::Whole;
    };
    let end = search::end_of(rest, 0, b'\n');
    refused_by(&rest[..end])
}

// The ending after a line that was printed, and the state that it left.
pub fn after(before: Ending, state: State, text: &[u8]) -> Ending
    requires { length text.now ≤ 2048 }
    ensures { result ≡ ending_after before state.phase text.now }
{
    if text.len() == 0 {
        return before;
    }
    if state::goes_on(state) {
        return before;
    }
    last_said(text)
}

// The line of a refusal, as it was printed.
pub fn refusal_line(ending: Ending, text: &mut [u8]) -> usize
    requires { 64 ≤ length text.old }
    ensures { Put 0 text.old (ending_line ending) result text.new × (result ≤ 64) }
{
    match ending {
        Ending::Open | Ending::Whole => 0,
        Ending::Refused(number, line, place) => {
            let numbers = [number, line, place];
            let n = print::bytes(text, 0, b"refused,");
            lines::row_line(text, n, &numbers)
        }
    }
}
