// The five stages alone, both ways, for any caller.
ghost use Rattle.std.specs.Prelude.{cond, ◌≡◌};
ghost use Rattle.runs.specs.Answers.{told};
ghost use Rattle.runs.specs.Alone.{stages_alone, unstages_alone};

use crate::transform;
use gate::questions;
use runs::answer::{Answer, Refusal};

// Questions 1, 6 and 7, then the stages or their undoing.
fn alone(undo: bool, width: usize, given: &[i32], out: &mut [i32]) -> Answer
    ensures { (told result, out.new) ≡ cond undo (unstages_alone width given.now out.old) (stages_alone width given.now out.old) }
{
    questions::in_parts(width, given.len(), 1, 1)?;
    if out.len() != width {
        return Err(Refusal::OutputLength);
    }
    transform::in_room(undo, width, given, out)
}

// Folded values to the coefficients of their frame.
pub fn stages(width: usize, folded: &[i32], frame: &mut [i32]) -> Answer
    ensures { (told result, frame.new) ≡ stages_alone width folded.now frame.old }
{
    alone(false, width, folded, frame)
}

// The coefficients of a frame to its folded values.
pub fn unstages(width: usize, frame: &[i32], folded: &mut [i32]) -> Answer
    ensures { (told result, folded.new) ≡ unstages_alone width frame.now folded.old }
{
    alone(true, width, frame, folded)
}
