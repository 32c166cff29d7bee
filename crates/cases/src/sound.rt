// Question 2 alone. A line of records.txt is a record, and whether it is sound that way:
//     way width count finished total held -> sound, or 2
// Held values that are not zero are given as place:value, parted by commas; there is a - where all are zero.
use crate::call;
use crate::call::Call;
use case_lines::line;
use runs::answer::Refusal;
use runs::record;
use runs::record::Run;

// What has no place and value puts nothing.
fn put(text: &[u8], held: &mut [i64]) {
    let (Some(place), Some(x)) = (line::count(text, 0, b':'), line::whole(text, 1, b':')) else {
        return;
    };
    if place < held.len() {
        held[place] = x;
    }
}

fn held_in(text: &[u8]) -> [i64; 64] {
    let mut held = record::nothing_held();
    let mut at = 0;
    while at < text.len() {
        let stop = line::end(text, at, b',');
        put(&text[at..stop], &mut held);
        at = stop + 1;
    }
    held
}

fn record_in(text: &[u8], total: i64) -> Run {
    let from = line::begin(text, 5, b' ');
    let held = held_in(&text[from..line::end(text, from, b' ')]);
    let width = line::size(text, 1, b' ');
    let finished = line::count(text, 3, b' ') == Some(1);
    record::make(width, line::size(text, 2, b' '), held, finished, total)
}

// The take and the finish of the way that a line names.
fn calls(text: &[u8]) -> Option<(Call, Call)> {
    if line::is(text, 0, b' ', b"forward") {
        return Some((Call::Take, Call::Finish));
    }
    if line::is(text, 0, b' ', b"back") {
        return Some((Call::TakeBack, Call::FinishBack));
    }
    None
}

// Whether a call refuses the record as unsound. Nothing comes in and nothing is lent, so that a take never works.
fn unsound(call: Call, run: Run) -> bool {
    let nothing = [0; 8];
    let mut room = [0; 8];
    let given = call::once(call, run, &nothing[..0], &mut room[..0]);
    given.answer == Err(Refusal::Record)
}

// Both calls of the way say what is told.
fn both(calls: (Call, Call), run: Run, told: bool) -> bool {
    unsound(calls.0, run) == told && unsound(calls.1, run) == told
}

pub fn agrees(text: &[u8]) -> bool {
    let (Some(calls), Some(total)) = (calls(text), line::whole(text, 4, b' ')) else {
        return false;
    };
    let run = record_in(text, total);
    if line::is(text, 7, b' ', b"sound") {
        return both(calls, run, false);
    }
    line::is(text, 7, b' ', b"2") && both(calls, run, true)
}
