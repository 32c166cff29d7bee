// What each way does with a block or frame and at the finish.
ghost use Rattle.std.specs.Prelude.{◌≡◌};
ghost use Rattle.runs.specs.Answers.{told};
ghost use Rattle.text_runs.specs.Way.{taken_by, ended_by};

use calls_back::back;
use calls_forward::forward;
use runs::record::{Outcome, Run};
use text_runs::state::Way;

pub fn take_by(way: Way, run: Run, numbers: &[i32], out: &mut [i32]) -> Outcome
    ensures { (told result.answer, result.run, out.new) ≡ taken_by way run numbers.now out.old }
{
    match way {
        Way::Forward => forward::take(run, numbers, out),
        Way::Back => back::take(run, numbers, out),
    }
}

pub fn finish_by(way: Way, run: Run, out: &mut [i32]) -> Outcome
    ensures { (told result.answer, result.run, out.new) ≡ ended_by way run out.old }
{
    match way {
        Way::Forward => forward::finish(run, out),
        Way::Back => back::finish(run),
    }
}
