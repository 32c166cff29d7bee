// A frame to its folded values: question 9, the five stages undone, and question 10. top and bottom are room for the halves, y and z
// for a product each. The folded values lie in the front of y, where nothing is needed once the products are made.
ghost use Rattle.std.specs.Prelude.{◌≡◌, length, take};
ghost use Rattle.integers.specs.Places.{Within};
ghost use Rattle.steps.specs.Limits.{coefficient_limit};
ghost use Rattle.steps.specs.Steps.{unstages};
ghost use Rattle.runs.specs.Answers.{told};
ghost use Rattle.runs.specs.Alone.{unstages_asked};
ghost use Rattle.frames.specs.Own.WideRoom.{WideRoom};

use gate::questions;
use runs::answer::{Answer, Refusal};
use runs::limits;
use slices::vectors;
use width_tables::parts::Tables;

// The five stages undone, where no coefficient is out of range.
pub fn unstages(
    t: &Tables,
    given: &[i32],
    top: &mut [i64],
    bottom: &mut [i64],
    y: &mut [i64],
    z: &mut [i64],
)
    requires wide_room { WideRoom t.now.width top.old bottom.old y.old z.old }
    requires given_len { length given.now ≡ t.now.width }
    requires within { Within coefficient_limit given.now }
    ensures { take t.now.width y.new ≡ Rattle.steps.specs.Steps.unstages t.now.width given.now }
{
    let half = t.half();
    vectors::widen(&given[..half], top);
    vectors::widen(&given[half..], bottom);
    stages::stages::backward(t, top, bottom, y, z);
    vectors::interleave(top, bottom, &mut y[..t.width]);
}

// With its questions. Where one says no, y may hold any numbers.
pub fn unstaged(
    t: &Tables,
    frame: &[i32],
    top: &mut [i64],
    bottom: &mut [i64],
    y: &mut [i64],
    z: &mut [i64],
) -> Answer
    requires wide_room { WideRoom t.now.width top.old bottom.old y.old z.old }
    requires frame_len { length frame.now ≡ t.now.width }
    ensures { (told result, take t.now.width y.new) ≡ unstages_asked t.now.width frame.now (take t.now.width y.new) }
{
    if let Some(place) = questions::seldom_beyond(
        frame,
        limits::COEFFICIENT_LIMIT,
        &mut y[..t.width],
    ) {
        return Err(Refusal::Range(place));
    }
    unstages(t, frame, top, bottom, y, z);
    if let Some(place) = questions::first_beyond(&y[..t.width], limits::FOLDED_LIMIT) {
        return Err(Refusal::Folded(place));
    }
    Ok(())
}
