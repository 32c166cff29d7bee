// A run back, call by call, for any caller: the record goes in by value and comes back with the answer.
ghost use Rattle.std.specs.Prelude.{◌≡◌, []};
ghost use Rattle.runs.specs.Answers.{told};
ghost use Rattle.gate.specs.Own.Ready.{Ready};
ghost use Rattle.runs.specs.Back.{taken_back, first_held, ended_back};

use crate::in_place;
use constants::widths;
use gate::questions;
use runs::answer::Refusal;
use runs::record::{Outcome, Run};
use runs::{limits, record};

// Take a frame: its coefficients in, the block before it out. The first frame writes nothing.
pub fn take(run: Run, frame: &[i32], block: &mut [i32]) -> Outcome
    ensures { (told result.answer, result.run, block.new) ≡ taken_back run frame.now block.old }
{
    let mut held = run.held;
    let before = run.total;
    let answer = in_place::take(
        run.width,
        run.count,
        run.finished,
        before,
        &mut held,
        frame,
        block,
    );
    let total = in_place::total_after(before, run.count, answer, block);
    questions::after_take(run, held, answer, total)
}

// Question 11 at the finish: the first held value that is not zero.
fn first_held(run: Run, half: usize) -> Option<usize>
    requires { Ready run half }
    ensures { result ≡ first_held run }
{
    let held = run.held;
    questions::first_beyond(&held[..half], 0)
}

// Finish: the run is closed.
pub fn finish(run: Run) -> Outcome
    ensures { (told result.answer, result.run, []) ≡ ended_back run }
{
    let held = run.held;
    let total = run.total;
    let asked = questions::still_open(
        limits::FRAME_LIMIT,
        run.width,
        run.count,
        run.finished,
        total,
        &held,
    );
    if let Err(refusal) = asked {
        return record::hand_back(run, Err(refusal));
    }
    if run.count == 0 {
        return record::hand_back(run, Err(Refusal::Empty));
    }
    let lower = first_held(run, widths::half_width(run.width));
    if let Some(place) = lower {
        return record::hand_back(run, Err(Refusal::Halves(place)));
    }
    record::hand_back(
        record::make(run.width, run.count, record::nothing_held(), true, total),
        Ok(()),
    )
}
