// The valve, for any caller: ask for a move, then make it.
ghost use Rattle.std.specs.Prelude.{◌≡◌};
ghost use Rattle.valves.specs.Calls.{asked, made};

use crate::{moves, questions};
use valves::answer::{Asked, Made};
use valves::record;
use valves::record::{Ticket, Valve};

// The move that a block asks for. Nothing is changed.
pub fn ask(width: usize, valve: Valve, block: &[i32]) -> Asked
    ensures { result ≡ asked width valve block.now }
{
    questions::of_ask(width, valve.position, valve.count, block)?;
    let steps = moves::asked(width, valve.position, block);
    Ok(record::ticket_of(steps, valve.count))
}

// The move of a ticket. A refused one hands back the same record.
pub fn make(valve: Valve, ticket: Ticket) -> Made
    ensures { result ≡ made valve ticket }
{
    let answer = questions::of_make(valve.position, valve.count, ticket.steps, ticket.count);
    if answer.is_err() {
        return Made { valve, answer };
    }
    let moved = record::valve_of(valve.position + ticket.steps, valve.count + 1);
    Made {
        valve: moved,
        answer,
    }
}
