// The questions of an ask and of a make.
ghost use Rattle.std.specs.Prelude.{◌≡◌, true, ◌&&◌, Ok, pos, neg_ℤ, ◌+ℤ◌};
ghost use Rattle.std.specs.Int.Signed.{lt_z};
ghost use Rattle.integers.specs.Vectors.{alike};
ghost use Rattle.valves.specs.declared.answer.Refusal.TheVariants.{Limits, AllMade, OtherCount};
ghost use Rattle.valves.specs.Record.{greatest_move, count_limit, in_travel, in_limits, valve_of, ticket_of};
ghost use Rattle.valves.specs.Calls.{ask, ask_answer, move_allowed, make_answer};

use constants::widths;
use gate::questions;
use gate::questions::Fault;
use valves::answer::{Answer, Refusal};
use valves::limits;

#[tactic(auto, unfolding(valves::specs::Record::between))]
fn between(low: i32, high: i32, x: i32) -> bool
    ensures { result ≡ Rattle.valves.specs.Record.between low high x }
{
    low <= x && x <= high
}

#[tactic(auto, unfolding(valves::specs::Record::in_travel))]
fn in_travel(position: i32) -> bool
    ensures { result ≡ in_travel position }
{
    between(0, limits::TRAVEL, position)
}

// Of question 17, what is asked of the record.
#[tactic(auto, unfolding(valves::specs::Record::in_limits))]
fn in_limits(position: i32, count: i32) -> bool
    ensures { result ≡ in_limits (valve_of position count) }
{
    in_travel(position) && between(0, limits::COUNT_LIMIT, count)
}

// Questions 1, 6, 8, 9 and 17.
pub fn of_ask(width: usize, position: i32, count: i32, block: &[i32]) -> Answer
    ensures { result ≡ ask_answer width (valve_of position count) block.now }
{
    if widths::half_width(width) == 0 {
        return Err(Refusal::Width);
    }
    if block.len() != width {
        return Err(Refusal::InputLength);
    }
    match questions::fault_of(block) {
        Ok(()) if in_limits(position, count) => Ok(()),
        Ok(()) => Err(Refusal::Limits),
        Err(Fault::Dead(place)) => Err(Refusal::DeadMark(place)),
        Err(Fault::Beyond(place)) => Err(Refusal::Range(place)),
    }
}

// Of question 17, what is asked of the ticket's move, from a position in the travel.
fn move_fits(position: i32, steps: i32) -> bool
    requires { in_travel position ≡ true }
    ensures { result ≡ (Rattle.valves.specs.Record.between (neg_ℤ (pos greatest_move)) (pos greatest_move) steps && in_travel (position +ℤ steps)) }
{
    between(-limits::GREATEST_MOVE, limits::GREATEST_MOVE, steps) && in_travel(position + steps)
}

// Question 17 of a make.
#[tactic(auto, unfolding(valves::specs::Calls::ask, valves::specs::Calls::move_allowed))]
fn of_limits(position: i32, count: i32, steps: i32) -> Answer
    ensures { result ≡ ask Limits (move_allowed (valve_of position count) steps) (Ok tt) }
{
    if in_limits(position, count) && move_fits(position, steps) {
        return Ok(());
    }
    Err(Refusal::Limits)
}

// Question 18.
#[tactic(auto, unfolding(valves::specs::Calls::ask))]
fn of_count(count: i32) -> Answer
    ensures { result ≡ ask AllMade (lt_z count (pos count_limit)) (Ok tt) }
{
    if count < limits::COUNT_LIMIT {
        return Ok(());
    }
    Err(Refusal::AllMade)
}

// Question 19; the stamp is the ticket's count.
#[tactic(auto, unfolding(valves::specs::Calls::ask))]
fn of_stamp(count: i32, stamp: i32) -> Answer
    ensures { result ≡ ask OtherCount (alike count stamp) (Ok tt) }
{
    if count == stamp {
        return Ok(());
    }
    Err(Refusal::OtherCount)
}

// Questions 17, 18 and 19.
#[tactic(auto, unfolding(valves::specs::Calls::ask, valves::specs::Calls::make_answer))]
pub fn of_make(position: i32, count: i32, steps: i32, stamp: i32) -> Answer
    ensures { result ≡ make_answer (valve_of position count) (ticket_of steps stamp) }
{
    of_limits(position, count, steps)?;
    of_count(count)?;
    of_stamp(count, stamp)
}
