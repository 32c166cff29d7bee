// The valve: asks and makes, each by itself. A line of valve.txt is one of
//     ask WIDTH READINGS POSITION COUNT -> ticket MOVE COUNT, or refused NUMBER PLACE
//     make POSITION COUNT MOVE COUNT -> moved POSITION COUNT, or refused NUMBER PLACE
// A list of no number is a -. What is neither does not agree.
ghost use Rattle.std.specs.Prelude.{◌≤◌};

use case_lines::line;
use valve_moves::valve;
use valves::answer::{Answer, Asked, Made};
use valves::record::Valve;
use valves::{answer, record};

// Part n, if it is a number that 32 bits hold.
fn number_in(text: &[u8], n: usize) -> Option<i32> {
    let from = line::begin(text, n, b' ');
    let mut room = [0; 1];
    if line::numbers(&text[from..line::end(text, from, b' ')], 0, &mut room) == 1 {
        return Some(room[0]);
    }
    None
}

// Part n and the one behind it: a record, or a ticket.
fn pair_in(text: &[u8], n: usize) -> Option<(i32, i32)>
    requires { n ≤ 7 }
{
    Some((number_in(text, n)?, number_in(text, n + 1)?))
}

fn is_told(text: &[u8], word: &[u8], x: i32, y: i32) -> bool {
    line::is(text, 6, b' ', word) && pair_in(text, 7) == Some((x, y))
}

fn refusal_is_told(text: &[u8], refusal: Answer) -> bool {
    line::is(text, 6, b' ', b"refused")
        && line::count(text, 7, b' ') == Some(answer::number(refusal))
        && line::count(text, 8, b' ') == Some(answer::place(refusal))
}

fn asked_is_told(text: &[u8], asked: Asked) -> bool {
    match asked {
        Ok(ticket) => is_told(text, b"ticket", ticket.steps, ticket.count),
        Err(refusal) => refusal_is_told(text, Err(refusal)),
    }
}

// A refused make hands back the record that it was given.
fn made_is_told(text: &[u8], before: Valve, made: Made) -> bool {
    let after = made.valve;
    match made.answer {
        Ok(()) => is_told(text, b"moved", after.position, after.count),
        refused => {
            refusal_is_told(text, refused)
                && after.position == before.position
                && after.count == before.count
        }
    }
}

// An ask with the list of part 2, which is a - where it has no number.
fn ask_agrees(text: &[u8], width: usize, before: Valve) -> bool {
    let from = line::begin(text, 2, b' ');
    let mut numbers = [0; 1024];
    let n = line::numbers(&text[from..line::end(text, from, b' ')], 0, &mut numbers);
    if n == 0 && !line::is(text, 2, b' ', b"-") {
        return false;
    }
    asked_is_told(text, valve::ask(width, before, &numbers[0..n]))
}

// None where the line has no numbers for an ask.
fn an_ask(text: &[u8]) -> Option<bool> {
    let width = line::whole(text, 1, b' ')?;
    let (position, count) = pair_in(text, 3)?;
    let before = record::valve_of(position, count);
    Some(ask_agrees(text, usize::try_from(width).unwrap_or(usize::MAX), before))
}

// None where the line has no numbers for a make.
fn a_make(text: &[u8]) -> Option<bool> {
    let (position, count) = pair_in(text, 1)?;
    let (steps, asked_at) = pair_in(text, 3)?;
    let before = record::valve_of(position, count);
    let made = valve::make(before, record::ticket_of(steps, asked_at));
    Some(made_is_told(text, before, made))
}

pub fn agrees(text: &[u8]) -> bool {
    if !line::is(text, 5, b' ', b"->") {
        return false;
    }
    if line::is(text, 0, b' ', b"ask") {
        return an_ask(text).unwrap_or(false);
    }
    line::is(text, 0, b' ', b"make") && a_make(text).unwrap_or(false)
}
