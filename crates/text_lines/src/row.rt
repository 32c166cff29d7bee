// A line between the width and the end line: a block or a frame, or the end line.
ghost use Rattle.std.specs.Prelude.{◌≡◌, ◌≤◌, length};
ghost use Rattle.text_runs.specs.Lines.{numbers_in};
ghost use Rattle.text_runs.specs.State.{result_of};
ghost use Rattle.text_runs.specs.Way.{taken_by, ended_by, lent_output};
ghost use Rattle.text_runs.specs.Line.{row_given, row_taken, between_taken, finish_given};

use crate::way;
use decimal::read;
use text_runs::state;
use text_runs::state::{Phase, Printed, State};
use text_state::{lines, refuse};

// No run is wider than 128.
fn take_numbers(state: State, numbers: &[i32]) -> Printed
    ensures result_value { result_of result ≡ row_given state (taken_by state.way state.run numbers.now (lent_output state.run)) }
    ensures length_bound { result.length ≤ 2048 }
{
    let n = state.run.width.min(128);
    let mut out = [0i32; 128];
    let outcome = way::take_by(state.way, state.run, numbers, &mut out[..n]);
    lines::given_row(state, outcome, &out[..n])
}

// A line of 2,048 bytes has at most 1,024 numbers.
fn take_row(state: State, line: &[u8]) -> Printed
    requires { length line.now ≤ 2048 }
    ensures result_value { result_of result ≡ row_taken state (numbers_in line.now) }
    ensures length_bound { result.length ≤ 2048 }
{
    let mut numbers = [0i32; 1024];
    let Some(n) = read::numbers(line, &mut numbers) else {
        return refuse::bad_form(state);
    };
    take_numbers(state, &numbers[..n])
}

pub fn take_between(state: State, line: &[u8]) -> Printed
    requires { length line.now ≤ 2048 }
    ensures result_value { result_of result ≡ between_taken state line.now }
    ensures length_bound { result.length ≤ 2048 }
{
    let run = state.run;
    let Some(total) = read::end_total(line, run.count) else {
        return take_row(state, line);
    };
    refuse::silent(state::with_run(state, Phase::Ended(total), run))
}

// The finish, once the input has ended, where the end line stated this total.
pub fn finish(state: State, total: i64) -> Printed
    ensures result_value { result_of result ≡ finish_given state total (ended_by state.way state.run (lent_output state.run)) }
    ensures length_bound { result.length ≤ 2048 }
{
    let n = state.run.width.min(128);
    let mut out = [0i32; 128];
    let outcome = way::finish_by(state.way, state.run, &mut out[..n]);
    lines::given_last(state, total, outcome, &out[..n])
}
