// How far a text run has come, and what is printed.
ghost use Rattle.std.specs.Prelude.{◌≡◌};
ghost use Rattle.text_runs.specs.State.{begun, with_run, is_going_on, line_between, line_number};

use runs::record::Run;
use runs::{limits, record};

// The way a run goes: readings to frames, or frames to readings.
#[derive(Clone, Copy, PartialEq, Eq)]
pub enum Way {
    Forward,
    Back,
}

// What the next line is. Behind the end line the total that it states is kept until the input has ended.
#[derive(Clone, Copy, PartialEq, Eq)]
pub enum Phase {
    First,
    Between,
    Ended(i64),
    Over,
}

#[derive(Clone, Copy)]
pub struct State {
    pub way: Way,
    pub phase: Phase,
    pub run: Run,
}

// The state after a line, and the bytes to print: the first `length` of `text`. The length stands beside the buffer, since nothing is on the
// heap and the paper prints into 2,048 bytes.
#[derive(Clone, Copy)]
pub struct Printed {
    pub state: State,
    pub text: [u8; 2048],
    pub length: usize,
}

// Before the first line.
pub fn begin(way: Way) -> State
    ensures { result ≡ begun way }
{
    let held = record::nothing_held();
    State {
        way,
        phase: Phase::First,
        run: record::make(0, 0, held, false, 0),
    }
}

// The same way on, with another phase and record.
#[tactic(auto, unfolding(crate::specs::State::with_run))]
pub fn with_run(state: State, phase: Phase, run: Run) -> State
    ensures { result ≡ with_run phase run state }
{
    State {
        phase,
        run,
        ..state
    }
}

// Whether anything is still to be printed.
#[tactic(auto, unfolding(crate::specs::State::is_going_on))]
pub fn goes_on(state: State) -> bool
    ensures { result ≡ is_going_on state.phase }
{
    !matches!(state.phase, Phase::Over)
}

#[tactic(auto, unfolding(crate::specs::State::line_between))]
fn line_between(count: usize) -> usize
    ensures { result ≡ line_between count }
{
    if limits::FRAME_LIMIT < count {
        return 0;
    }
    count + 2
}

// The line that a refusal names.
#[tactic(auto, unfolding(crate::specs::State::line_number))]
pub fn line_number(state: State) -> usize
    ensures { result ≡ line_number state.phase state.run }
{
    match state.phase {
        Phase::First => 1,
        Phase::Between | Phase::Ended(_) | Phase::Over => line_between(state.run.count),
    }
}
