// A run forward, call by call, for any caller: the record goes in by value and comes back with the answer.
ghost use Rattle.std.specs.Prelude.{◌≡◌, length};
ghost use Rattle.runs.specs.Answers.{told};
ghost use Rattle.runs.specs.Record.{zeros, closed};
ghost use Rattle.gate.specs.Own.Ready.{Ready};
ghost use Rattle.runs.specs.Forward.{started, frame_on, taken, ended};

use crate::in_place;
use constants::widths;
use frames::step;
use gate::questions;
use runs::answer::Refusal;
use runs::record::{Outcome, Run};
use runs::{limits, record};

// A fresh run of a width.
pub fn start(width: usize) -> Outcome
    ensures { (told result.answer, result.run) ≡ started width }
{
    let held = record::nothing_held();
    let half = widths::half_width(width);
    if half == 0 {
        return record::hand_back(record::make(0, 0, held, false, 0), Err(Refusal::Width));
    }
    record::hand_back(record::make(width, 0, held, false, 0), Ok(()))
}

fn close(run: Run, half: usize, frame: &mut [i32]) -> Run
    requires ready { Ready run half }
    requires frame_len { length frame.old ≡ run.width }
    ensures { (result ≡ closed run) × (frame.new ≡ frame_on run (zeros run.width)) }
{
    let width = run.width;
    let total = run.total;
    let zeros = step::zero_block();
    let mut held = run.held;
    in_place::step_in(width, &zeros[..width], &mut held[..half], frame);
    record::make(width, run.count, record::nothing_held(), true, total)
}

// Take a block: its readings in, its frame out.
pub fn take(run: Run, block: &[i32], frame: &mut [i32]) -> Outcome
    ensures { (told result.answer, result.run, frame.new) ≡ taken run block.now frame.old }
{
    let mut held = run.held;
    let before = run.total;
    let answer = in_place::take(
        run.width,
        run.count,
        run.finished,
        before,
        &mut held,
        block,
        frame,
    );
    let total = questions::next_total(before, answer, block);
    questions::after_take(run, held, answer, total)
}

// Finish: the frame of the last block's held half.
pub fn finish(run: Run, frame: &mut [i32]) -> Outcome
    ensures { (told result.answer, result.run, frame.new) ≡ ended run frame.old }
{
    let width = run.width;
    let held = run.held;
    let asked = questions::still_open(
        limits::BLOCK_LIMIT,
        width,
        run.count,
        run.finished,
        run.total,
        &held,
    );
    if let Err(refusal) = asked {
        return record::hand_back(run, Err(refusal));
    }
    if frame.len() != width {
        return record::hand_back(run, Err(Refusal::OutputLength));
    }
    record::hand_back(close(run, widths::half_width(width), frame), Ok(()))
}
