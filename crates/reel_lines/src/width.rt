// The width line of a run.
ghost use Rattle.std.specs.Prelude.{◌≡◌};
ghost use Rattle.reels.specs.Verdicts.{verdict_told};
ghost use Rattle.reels.specs.Reel.{width_asked, taken_or, run_begun, width_line};
ghost use Rattle.reels.specs.Limits.{WithinLimits};

use crate::refuse;
use constants::widths;
use reels::limits;
use reels::reel::{Reel, ReelPhase};
use reels::verdict::{Refusal, Verdict};

// Questions 1, 14 and 15, where so many runs were begun, the first of this width.
fn asked(width: usize, first: usize, runs: usize) -> Verdict
    ensures { result ≡ width_asked width first runs }
{
    if widths::half_width(width) == 0 {
        return Err(Refusal::Width);
    }
    if runs == 0 {
        return Ok(());
    }
    if width != first {
        return Err(Refusal::OtherWidth);
    }
    if limits::RUN_LIMIT <= runs {
        return Err(Refusal::RunTooMany);
    }
    Ok(())
}

fn start_run(reel: &mut Reel, width: usize)
    requires { WithinLimits reel.old }
    ensures { reel.new ≡ taken_or reel.old (verdict_told (width_asked width reel.old.width reel.old.runs)) (run_begun reel.old width) }
{
    if let Err(refusal) = asked(width, reel.width, reel.runs) {
        return refuse::by(reel, refusal);
    }
    reel.phase = ReelPhase::Frames;
    reel.width = width;
    reel.runs += 1;
    reel.count = 0;
}

pub fn take_width(reel: &mut Reel, field: Option<i64>)
    requires { WithinLimits reel.old }
    ensures { reel.new ≡ width_line reel.old field }
{
    let Some(width) = field else {
        return refuse::by(reel, Refusal::Form);
    };
    if width < 0 {
        return refuse::by(reel, Refusal::Width);
    }
    start_run(reel, width as usize)
}
