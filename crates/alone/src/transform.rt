// A frame from its folded values by the five stages, and its way back, with the questions about their numbers. top and bottom are room for
// the halves, y and z for a product each. What is made lies in the front of y.
ghost use Rattle.std.specs.Prelude.{cond, ◌≡◌, ◌++◌, ◌+◌, ◌*◌, ◌<◌, length, take};
ghost use Rattle.integers.specs.Places.{places, at, Within};
ghost use Rattle.tables.specs.Widths.{half_width};
ghost use Rattle.steps.specs.Limits.{folded_limit};
ghost use Rattle.steps.specs.Steps.{stages};
ghost use Rattle.runs.specs.Answers.{told};
ghost use Rattle.runs.specs.Alone.{stages_asked, unstages_asked};
ghost use Rattle.frames.specs.Own.WideRoom.{WideRoom};

use frames::transform;
use gate::questions;
use runs::answer::{Answer, Refusal};
use runs::limits;
use slices::{room, vectors};
use width_tables::fill;
use width_tables::parts::Tables;

// The numbers at the even places, or else at the odd ones: first is 0 or 1.
fn every_second(x: &[i32], first: usize, out: &mut [i64])
    requires { (first < 2) × (length x.now ≡ length out.old + length out.old) }
    ensures { out.new ≡ places (length out.old) (λ i. at x.now (2 * i + first)) }
{
    for (i, v) in out.iter_mut().enumerate() {
        *v = i64::from(x[2 * i + first]);
    }
}

// top, and bottom behind it.
fn join(top: &[i64], bottom: &[i64], out: &mut [i64])
    requires { length out.old ≡ length top.now + length bottom.now }
    ensures { out.new ≡ top.now ++ bottom.now }
{
    let half = top.len();
    out[..half].copy_from_slice(top);
    out[half..].copy_from_slice(bottom);
}

fn stages(
    t: &Tables,
    given: &[i32],
    top: &mut [i64],
    bottom: &mut [i64],
    y: &mut [i64],
    z: &mut [i64],
)
    requires wide_room { WideRoom t.now.width top.old bottom.old y.old z.old }
    requires given_len { length given.now ≡ t.now.width }
    requires within { Within folded_limit given.now }
    ensures { take t.now.width y.new ≡ Rattle.steps.specs.Steps.stages t.now.width given.now }
{
    every_second(given, 0, top);
    every_second(given, 1, bottom);
    stages::stages::forward(t, top, bottom, y, z);
    join(top, bottom, &mut y[..t.width]);
}

// Question 10, then the stages: folded values to the frame. Where question 10 says no, y may hold any numbers.
fn staged(
    t: &Tables,
    folded: &[i32],
    top: &mut [i64],
    bottom: &mut [i64],
    y: &mut [i64],
    z: &mut [i64],
) -> Answer
    requires wide_room { WideRoom t.now.width top.old bottom.old y.old z.old }
    requires folded_len { length folded.now ≡ t.now.width }
    ensures { (told result, take t.now.width y.new) ≡ stages_asked t.now.width folded.now (take t.now.width y.new) }
{
    if let Some(place) = questions::seldom_beyond(folded, limits::FOLDED_LIMIT, &mut y[..t.width]) {
        return Err(Refusal::Folded(place));
    }
    stages(t, folded, top, bottom, y, z);
    Ok(())
}

// One way or the other.
fn either_way(
    undo: bool,
    t: &Tables,
    given: &[i32],
    top: &mut [i64],
    bottom: &mut [i64],
    y: &mut [i64],
    z: &mut [i64],
) -> Answer
    requires wide_room { WideRoom t.now.width top.old bottom.old y.old z.old }
    requires given_len { length given.now ≡ t.now.width }
    ensures { (told result, take t.now.width y.new) ≡ cond undo (unstages_asked t.now.width given.now (take t.now.width y.new)) (stages_asked t.now.width given.now (take t.now.width y.new)) }
{
    if undo {
        return transform::unstaged(t, given, top, bottom, y, z);
    }
    staged(t, given, top, bottom, y, z)
}

// In room of its own.
pub fn in_room(undo: bool, width: usize, given: &[i32], out: &mut [i32]) -> Answer
    requires width_nonzero { 0 < half_width width }
    requires given_len { (length given.now ≡ width) × (length out.old ≡ width) }
    ensures { (told result, out.new) ≡ cond undo (unstages_asked width given.now out.old) (stages_asked width given.now out.old) }
{
    let half = width / 2;
    let long = fill::tables_long(width);
    let mut t = room::zeros::<1906>();
    let mut top = room::zeros::<64>();
    let mut bottom = room::zeros::<64>();
    let mut y = room::zeros::<648>();
    let mut z = room::zeros::<648>();
    fill::fill(width, &mut t[..long], &mut y);
    let tables = Tables {
        width,
        numbers: &t[..long],
    };
    either_way(
        undo,
        &tables,
        given,
        &mut top[..half],
        &mut bottom[..half],
        &mut y,
        &mut z,
    )?;
    vectors::narrow(&y[..width], out);
    Ok(())
}
