// A refused line.
ghost use Rattle.std.specs.Prelude.{◌≡◌, Err};
ghost use Rattle.reels.specs.Verdicts.{verdict_told};
ghost use Rattle.reels.specs.Reel.{reel_refused};
ghost use Rattle.reels.specs.Limits.{WithinLimits};

use reels::reel::{Reel, ReelPhase};
use reels::verdict::Refusal;
use reels::{reel, verdict};

// The reel is over, and says why.
#[tactic(auto, unfolding(reels::specs::Reel::reel_refused))]
pub fn by(reel: &mut Reel, refusal: Refusal)
    requires { WithinLimits reel.old }
    ensures { reel.new ≡ reel_refused reel.old (verdict_told (Err refusal)) }
{
    let (number, place) = verdict::told_by(Err(refusal));
    let line = reel::line_number(reel.phase, reel.runs, reel.frames);
    *reel = reel::to_phase(*reel, ReelPhase::Refused(number, line, place));
}
