// A reel, line by line: the state goes in by value and comes back. In between each function changes it in place, since its sums are a kibibyte.
ghost use Rattle.std.specs.Prelude.{◌≡◌, cond, ◌≤◌, length};
ghost use Rattle.reels.specs.Reel.{reel_taken, reel_broken, reel_ended};
ghost use Rattle.reels.specs.Limits.{WithinLimits};

use crate::{frame, refuse, width};
use decimal::read;
use reels::reel;
use reels::reel::{Reel, ReelPhase};
use reels::verdict::Refusal;

#[tactic(auto, unfolding(reels::specs::Reel::reel_taken))]
fn take_formed(reel: &mut Reel, line: &[u8])
    requires { WithinLimits reel.old × (length line.now ≤ 2048) }
    ensures { reel.new ≡ reel_taken reel.old.phase reel.old line.now }
{
    match reel.phase {
        ReelPhase::FirstRun | ReelPhase::NextRun => width::take_width(reel, read::number(line)),
        ReelPhase::Frames => frame::take_between(reel, line),
        ReelPhase::Whole | ReelPhase::Refused(..) => {}
    }
}

// A broken line, and missing text.
#[tactic(auto, unfolding(reels::specs::Reel::reel_broken, reels::specs::Reel::reel_over))]
fn take_not_formed(reel: &mut Reel)
    requires { WithinLimits reel.old }
    ensures { reel.new ≡ reel_broken reel.old.phase reel.old }
{
    if !reel::is_over(reel.phase) {
        refuse::by(reel, Refusal::Form);
    }
}

// One line, without its line feed, which is whole if it had one and is not cut.
pub fn take(mut reel: Reel, whole: bool, line: &[u8]) -> Reel
    requires { WithinLimits reel × (length line.now ≤ 2048) }
    ensures { result ≡ cond whole (reel_taken reel.phase reel line.now) (reel_broken reel.phase reel) }
{
    if whole {
        take_formed(&mut reel, line);
    } else {
        take_not_formed(&mut reel);
    }
    reel
}

// The input has no line more.
#[tactic(auto, unfolding(reels::specs::Reel::reel_ended, reels::specs::Reel::reel_broken))]
pub fn end(mut reel: Reel) -> Reel
    requires { WithinLimits reel }
    ensures { result ≡ reel_ended reel.phase reel }
{
    match reel.phase {
        ReelPhase::FirstRun | ReelPhase::Frames => take_not_formed(&mut reel),
        ReelPhase::NextRun => reel = reel::to_phase(reel, ReelPhase::Whole),
        ReelPhase::Whole | ReelPhase::Refused(..) => {}
    }
    reel
}
