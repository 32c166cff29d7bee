// The valve, for C. The record's two numbers and the ticket's two are the caller's; a refused call leaves them as they were.
ghost use Rattle.std.specs.Prelude.{◌≡◌};
ghost use Rattle.valves.specs.Answers.{told};
ghost use Rattle.valves.specs.ForC.{lapped_valve_ask, lapped_valve_make};

use valve_moves::valve;
use valves::answer::Answer;
use valves::{answer, record};

fn tell(answer: Answer, place: &mut usize) -> u32
    ensures { (result, place.new) ≡ told answer }
{
    *place = answer::place(answer);
    answer::number(answer) as u32
}

// Ask for a move: its ticket is two numbers, the steps and the record's count as its stamp.
#[unsafe(no_mangle)]
pub extern "C" fn lapped_valve_ask(
    width: usize,
    position: i32,
    count: i32,
    block: &[i32],
    steps: &mut i32,
    stamp: &mut i32,
    place: &mut usize,
) -> u32
    ensures { ((result, place.new), steps.new, stamp.new) ≡ lapped_valve_ask width position count block.now steps.old stamp.old }
{
    match valve::ask(width, record::valve_of(position, count), block) {
        Ok(ticket) => {
            *steps = ticket.steps;
            *stamp = ticket.count;
            tell(Ok(()), place)
        }
        Err(refusal) => tell(Err(refusal), place),
    }
}

// Make the move of a ticket. Position and count are read, and written where it works.
#[unsafe(no_mangle)]
pub extern "C" fn lapped_valve_make(
    position: &mut i32,
    count: &mut i32,
    steps: i32,
    stamp: i32,
    place: &mut usize,
) -> u32
    ensures { ((result, place.new), position.new, count.new) ≡ lapped_valve_make position.old count.old steps stamp }
{
    let ticket = record::ticket_of(steps, stamp);
    let made = valve::make(record::valve_of(*position, *count), ticket);
    if made.answer.is_ok() {
        *position = made.valve.position;
        *count = made.valve.count;
    }
    tell(made.answer, place)
}
