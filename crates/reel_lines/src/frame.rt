// A line behind the width: a frame, or the end line of its run.
ghost use Rattle.std.specs.Prelude.{◌≡◌, ◌*◌, ◌%◌, ◌≤◌, nat_abs, length, Some};
ghost use Rattle.integers.specs.Places.{Within};
ghost use Rattle.steps.specs.Limits.{coefficient_limit};
ghost use Rattle.runs.specs.Record.{frame_limit};
ghost use Rattle.text_runs.specs.Lines.{numbers_in};
ghost use Rattle.reels.specs.Verdicts.{verdict_told};
ghost use Rattle.reels.specs.Page.{squared};
ghost use Rattle.reels.specs.Reel.{run_limit, to_phase, taken_or, frame_asked, squares_added, frame_line, end_asked, run_line};
ghost use Rattle.reels.specs.declared.reel.ReelPhase.TheVariants.{NextRun};
ghost use Rattle.reels.specs.Limits.{SumsWithin, WithinLimits};

use crate::refuse;
use decimal::read;
use gate::questions;
use reels::reel;
use reels::reel::{Reel, ReelPhase};
use reels::verdict::{Refusal, Verdict};
use runs::limits;
use slices::room;

fn square(x: i32) -> i64
    requires { nat_abs x ≤ coefficient_limit }
    ensures { result ≡ squared x }
{
    i64::from(x) * i64::from(x)
}

// Each square to the sum of its own coefficient number.
fn add_squares(sums: &mut [i64], frame: &[i32])
    requires frame_in_bounds { length frame.now ≤ length sums.old }
    requires within { Within coefficient_limit frame.now }
    requires sums_within { SumsWithin (run_limit * frame_limit) sums.old }
    ensures { sums.new ≡ squares_added sums.old frame.now }
{
    for (i, x) in frame.iter().enumerate() {
        sums[i] += square(*x);
    }
}

// Questions 4, 6 and 9.
fn asked(frame: &[i32], width: usize, count: usize) -> Verdict
    requires { (width ≤ 128) × (width % 4 ≡ 0) }
    ensures { result ≡ frame_asked width count frame.now }
{
    if limits::FRAME_LIMIT <= count {
        return Err(Refusal::Full);
    }
    if frame.len() != width {
        return Err(Refusal::Length);
    }
    let mut wide = room::zeros::<128>();
    match questions::seldom_beyond(frame, limits::COEFFICIENT_LIMIT, &mut wide[..width]) {
        Some(place) => Err(Refusal::Range(place)),
        None => Ok(()),
    }
}

fn take_frame(reel: &mut Reel, frame: &[i32])
    requires { WithinLimits reel.old }
    ensures { reel.new ≡ frame_line reel.old (Some frame.now) }
{
    if let Err(refusal) = asked(frame, reel.width, reel.count) {
        return refuse::by(reel, refusal);
    }
    add_squares(&mut reel.sums, frame);
    reel.phase = ReelPhase::Frames;
    reel.count += 1;
    reel.frames += 1;
}

// A line of 2,048 bytes has at most 1,024 numbers.
fn take_row(reel: &mut Reel, line: &[u8])
    requires { WithinLimits reel.old × (length line.now ≤ 2048) }
    ensures { reel.new ≡ frame_line reel.old (numbers_in line.now) }
{
    let mut numbers = [0i32; 1024];
    let Some(n) = read::numbers(line, &mut numbers) else {
        return refuse::by(reel, Refusal::Form);
    };
    take_frame(reel, &numbers[..n])
}

// Question 5.
fn end_run(reel: &mut Reel)
    requires { WithinLimits reel.old }
    ensures { reel.new ≡ taken_or reel.old (verdict_told (end_asked reel.old.count)) (to_phase NextRun reel.old) }
{
    if reel.count == 0 {
        return refuse::by(reel, Refusal::Empty);
    }
    *reel = reel::to_phase(*reel, ReelPhase::NextRun);
}

// An end line or a frame. Frames that do not go back have no total, so its value is not asked.
#[tactic(auto, using(crate::proofs::LineLaws::run_ended, crate::proofs::LineLaws::frame_taken))]
pub fn take_between(reel: &mut Reel, line: &[u8])
    requires { WithinLimits reel.old × (length line.now ≤ 2048) }
    ensures { reel.new ≡ run_line reel.old line.now }
{
    match read::end_total(line, reel.count) {
        Some(_total) => end_run(reel),
        None => take_row(reel, line),
    }
}
