// What is printed for a block or frame that a run takes, and for its finish: the lines of each way, or the refusal.
ghost use Rattle.std.specs.Prelude.{◌≡◌, ◌+◌, ◌*◌, ◌≤◌, length, take};
ghost use Rattle.runs.specs.Answers.{told};
ghost use Rattle.decimal.specs.Own.Put.{Put};
ghost use Rattle.text_runs.specs.declared.state.Way.TheVariants.{Back};
ghost use Rattle.text_runs.specs.State.{result_of};
ghost use Rattle.text_runs.specs.Way.{row_line, last_line, shown_row, shown_last};
ghost use Rattle.text_runs.specs.Line.{row_given, finish_given};
ghost use Rattle.text_state.specs.Own.Closing.{Closing};

use crate::refuse;
use decimal::print;
use runs::record::{Outcome, Run};
use text_runs::state;
use text_runs::state::{Phase, Printed, State, Way};

pub fn row_line(text: &mut [u8], at: usize, out: &[i32]) -> usize
    requires { at + 12 * length out.now + 1 ≤ length text.old }
    ensures { Put at text.old (row_line out.now) result text.new × (result ≤ at + 12 * length out.now + 1) }
{
    let n = print::numbers(text, at, out);
    print::bytes(text, n, b"\n")
}

fn last_line(text: &mut [u8], at: usize, count: usize, total: i64) -> usize
    requires { at + 46 ≤ length text.old }
    ensures { Put at text.old (last_line count total) result text.new × (result ≤ at + 46) }
{
    let n = print::end_line(text, at, count, total);
    print::bytes(text, n, b"\n")
}

// Back, the first frame only starts the run.
#[tactic(auto, unfolding(text_runs::specs::Way::shown_row))]
fn shown_block(run: Run, out: &[i32], text: &mut [u8]) -> usize
    requires { 12 * length out.now + 1 ≤ length text.old }
    ensures { (take result text.new ≡ shown_row Back run out.now) × (result ≤ length text.old) }
{
    if run.count == 0 {
        return 0;
    }
    row_line(text, 0, out)
}

// For a block or frame that a record takes.
fn shown_row(way: Way, run: Run, out: &[i32], text: &mut [u8]) -> usize
    requires { 12 * length out.now + 1 ≤ length text.old }
    ensures { (take result text.new ≡ shown_row way run out.now) × (result ≤ length text.old) }
{
    match way {
        Way::Forward => row_line(text, 0, out),
        Way::Back => shown_block(run, out, text),
    }
}

// For the finish.
fn shown_last(way: Way, run: Run, out: &[i32], text: &mut [u8]) -> usize
    requires out_in_bounds { 12 * length out.now + 47 ≤ length text.old }
    requires closing { Closing way run.count }
    ensures { (take result text.new ≡ shown_last way run out.now) × (result ≤ length text.old) }
{
    match way {
        Way::Forward => {
            let n = row_line(text, 0, out);
            last_line(text, n, run.count + 1, run.total)
        }
        Way::Back => last_line(text, 0, run.count - 1, run.total),
    }
}

// What is printed for a call that took a block or frame, or for its refusal.
pub fn given_row(state: State, outcome: Outcome, out: &[i32]) -> Printed
    requires { length out.now ≤ 128 }
    ensures result_value { result_of result ≡ row_given state (told outcome.answer, outcome.run, out.now) }
    ensures length_bound { result.length ≤ 2048 }
{
    if let Err(refusal) = outcome.answer {
        return refuse::by_refusal(state, refusal);
    }
    let mut text = [0u8; 2048];
    let length = shown_row(state.way, state.run, out, &mut text);
    Printed {
        state: state::with_run(state, Phase::Between, outcome.run),
        text,
        length,
    }
}

// What is printed for a finish that worked, or for its refusal: by the gate, or behind it by the total that the end line states.
#[tactic(auto, using(crate::proofs::GivenLaws::gate_refused, crate::proofs::GivenLaws::total_refused))]
pub fn given_last(state: State, stated: i64, outcome: Outcome, out: &[i32]) -> Printed
    requires out_len_bound { length out.now ≤ 128 }
    requires closing { (told outcome.answer).0 ≡ 0 → Closing state.way state.run.count }
    ensures result_value { result_of result ≡ finish_given state stated (told outcome.answer, outcome.run, out.now) }
    ensures length_bound { result.length ≤ 2048 }
{
    let total = state.run.total;
    if let Err(refusal) = outcome.answer {
        return refuse::by_refusal(state, refusal);
    }
    if stated != total {
        return refuse::by(state, 16, 0);
    }
    let mut text = [0u8; 2048];
    let length = shown_last(state.way, state.run, out, &mut text);
    Printed {
        state: state::with_run(state, Phase::Over, outcome.run),
        text,
        length,
    }
}
