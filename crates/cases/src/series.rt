// Calls one after another, each with the record that the one before handed back. A line of calls.txt is a call, and what it tells:
//     start WIDTH | block READINGS LENGTH | finish LENGTH | frame COEFFICIENTS LENGTH | finish_back 0   -> number place count total
// The length is that of the output. A list of no number is a -.
use crate::call::Call;
use crate::{call, case};
use calls_forward::forward;
use case_lines::line;
use runs::answer;
use runs::answer::Refusal;
use runs::record::{Outcome, Run};

// A place that no refusal of the library names.
const NOWHERE: usize = 4294967296;

// The record after a line, and whether the call gave what is told.
#[derive(Clone, Copy)]
pub struct Given {
    pub run: Run,
    pub same: bool,
}

fn named(text: &[u8]) -> Option<Call> {
    if line::is(text, 0, b' ', b"start") {
        return Some(Call::Start);
    }
    if line::is(text, 0, b' ', b"block") {
        return Some(Call::Take);
    }
    if line::is(text, 0, b' ', b"finish") {
        return Some(Call::Finish);
    }
    if line::is(text, 0, b' ', b"frame") {
        return Some(Call::TakeBack);
    }
    if line::is(text, 0, b' ', b"finish_back") {
        return Some(Call::FinishBack);
    }
    None
}

// A call with a list that comes in, and an output of a length; an output longer than there is room for is one of no number.
fn lent(call: Call, run: Run, text: &[u8], list: &[u8], place: usize) -> Outcome {
    let mut numbers = case::marked();
    let mut output = case::marked();
    let n = line::numbers(list, 0, &mut numbers);
    let m = line::size(text, place, b' ');
    if m <= 1024 {
        return call::once(call, run, &numbers[0..n], &mut output[0..m]);
    }
    call::once(call, run, &numbers[0..n], &mut output[0..0])
}

fn called(call: Call, run: Run, text: &[u8]) -> Outcome {
    let from = line::begin(text, 1, b' ');
    match call {
        Call::Start => forward::start(line::size(text, 1, b' ')),
        Call::Finish | Call::FinishBack => lent(call, run, text, b"-", 1),
        _ => lent(call, run, text, &text[from..line::end(text, from, b' ')], 2),
    }
}

// What is told begins behind the arrow's point, with a space.
fn as_told(given: Outcome, told: &[u8]) -> bool {
    let run = given.run;
    let answer = given.answer;
    line::count(told, 1, b' ') == Some(answer::number(answer))
        && line::count(told, 2, b' ') == Some(answer::place(answer))
        && line::count(told, 3, b' ') == Some(run.count)
        && line::whole(told, 4, b' ') == Some(run.total)
}

// A line that names no call leaves the record as it is, and answers 12 at no place.
pub fn next(run: Run, text: &[u8]) -> Given {
    let given = match named(text) {
        Some(call) => called(call, run, text),
        None => Outcome {
            run,
            answer: Err(Refusal::Unfolded(NOWHERE)),
        },
    };
    let from = line::begin(text, 1, b'>');
    Given {
        run: given.run,
        same: as_told(given, &text[from..]),
    }
}
