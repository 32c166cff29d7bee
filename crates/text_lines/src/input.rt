// A text run, line by line, for any caller: the state goes in by value and comes back with what is printed.
ghost use Rattle.std.specs.Prelude.{◌≡◌, ◌≤◌, length};
ghost use Rattle.text_runs.specs.State.{result_of};
ghost use Rattle.text_runs.specs.Line.{formed, not_formed, line_taken, input_ended};

use crate::{row, width};
use decimal::read;
use text_runs::state::{Phase, Printed, State};
use text_state::refuse;

fn take_formed(state: State, line: &[u8]) -> Printed
    requires { length line.now ≤ 2048 }
    ensures result_value { result_of result ≡ formed state.phase state line.now }
    ensures length_bound { result.length ≤ 2048 }
{
    match state.phase {
        Phase::First => width::take_width(state, read::number(line)),
        Phase::Between => row::take_between(state, line),
        Phase::Ended(_) => refuse::bad_form(state),
        Phase::Over => refuse::silent(state),
    }
}

#[tactic(auto, unfolding(text_runs::specs::Line::not_formed))]
fn take_not_formed(state: State) -> Printed
    ensures result_value { result_of result ≡ not_formed state.phase state }
    ensures length_bound { result.length ≤ 2048 }
{
    match state.phase {
        Phase::First | Phase::Between | Phase::Ended(_) => refuse::bad_form(state),
        Phase::Over => refuse::silent(state),
    }
}

// One line, without its line feed. It is whole if it had one and is not cut.
#[tactic(auto, unfolding(text_runs::specs::Line::line_taken))]
pub fn take(state: State, whole: bool, line: &[u8]) -> Printed
    ensures result_value { result_of result ≡ line_taken state whole line.now }
    ensures length_bound { result.length ≤ 2048 }
{
    if !whole || 2048 < line.len() {
        return take_not_formed(state);
    }
    take_formed(state, line)
}

// The input has no line more.
pub fn end(state: State) -> Printed
    ensures result_value { result_of result ≡ input_ended state }
    ensures length_bound { result.length ≤ 2048 }
{
    match state.phase {
        Phase::First | Phase::Between => refuse::bad_form(state),
        Phase::Ended(total) => row::finish(state, total),
        Phase::Over => refuse::silent(state),
    }
}
