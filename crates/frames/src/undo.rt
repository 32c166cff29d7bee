// One frame back: its folded values, the block before it, and what it holds for the next.
ghost use Rattle.std.specs.Prelude.{◌≡◌, ◌%◌, ◌^◌, ◌≤◌, ℤ, length, take, drop};
ghost use Rattle.integers.specs.Places.{Within};
ghost use Rattle.tables.specs.Widths.{half_width};
ghost use Rattle.steps.specs.Limits.{folded_limit};
ghost use Rattle.steps.specs.Steps;
ghost use Rattle.runs.specs.Answers.{told};
ghost use Rattle.runs.specs.Record.{next_count, next_total, readings_given, opened};
ghost use Rattle.runs.specs.Back.{unfolded_in, undone_in};
ghost use Rattle.frames.specs.Own.WideRoom.{WideRoom};
ghost use Rattle.frames.specs.Own.Unrefused.{Unrefused};

use crate::transform;
use fold::folding;
use gate::questions;
use runs::answer::{Answer, Refusal};
use runs::limits;
use slices::vectors;
use width_tables::parts::Tables;

// The block between the lower half that is held and this frame's upper half.
fn block_between(t: &Tables, folded: &[i64], held: &[i64], wide: &mut [i64])
    requires folded_len { (length folded.now ≡ t.now.width) × (length held.now ≡ half_width t.now.width) × (length wide.old ≡ t.now.width) }
    requires within { Within folded_limit folded.now }
    requires within_2 { Within folded_limit held.now }
    ensures { wide.new ≡ Steps.unfolded t.now.width held.now (drop (half_width t.now.width) folded.now) }
{
    let half = t.half();
    folding::unfold(
        t.width,
        t.tangents(),
        t.sines(),
        held,
        &folded[half..],
        wide,
    );
}

// The block is written, and the lower half of the frame is held.
fn write(folded: &[i64], wide: &[i64], held: &mut [i64], block: &mut [i32])
    requires wide_len { (length wide.now ≡ length block.old) × (length wide.now % 4 ≡ 0) × (length held.old ≤ length folded.now) }
    requires within { Within (2 ^ 30) wide.now }
    ensures { (held.new ≡ take (length held.old) folded.now) × (block.new ≡ wide.now) }
{
    let half = held.len();
    vectors::narrow(wide, block);
    vectors::copy(&folded[..half], held);
}

// The first frame: question 11. A later one: its block, and question 12. Then the lower half is held.
fn unfolded_in(
    count: usize,
    t: &Tables,
    folded: &[i64],
    held: &mut [i64],
    wide: &mut [i64],
    block: &mut [i32],
) -> Answer
    requires folded_len { (length folded.now ≡ t.now.width) × (length held.old ≡ half_width t.now.width) × (length wide.old ≡ t.now.width) × (length block.old ≡ t.now.width) }
    requires within { Within folded_limit folded.now }
    requires within_2 { Within folded_limit held.old }
    ensures { (total : ℤ) → (told result, opened t.now.width (next_count (told result).0 count) (next_total (told result).0 total (readings_given count block.new)) held.new, block.new) ≡ unfolded_in (opened t.now.width count total held.old) folded.now block.old }
{
    let half = t.half();
    if count == 0 {
        if let Some(place) = questions::first_beyond(&folded[half..], 0) {
            return Err(Refusal::Halves(half + place));
        }
        vectors::copy(&folded[..half], held);
        return Ok(());
    }
    block_between(t, folded, held, wide);
    if let Some(place) = questions::first_beyond(wide, limits::READING_LIMIT) {
        return Err(Refusal::Unfolded(place));
    }
    write(folded, wide, held, block);
    Ok(())
}

// Questions 9 to 12 of the frame behind count others, and the block before it; what follows block is room to work in.
pub fn undo(
    count: usize,
    t: &Tables,
    frame: &[i32],
    held: &mut [i64],
    block: &mut [i32],
    top: &mut [i64],
    bottom: &mut [i64],
    y: &mut [i64],
    z: &mut [i64],
) -> Answer
    requires frame_len { (length frame.now ≡ t.now.width) × (length held.old ≡ half_width t.now.width) × (length block.old ≡ t.now.width) }
    requires wide_room { WideRoom t.now.width top.old bottom.old y.old z.old }
    requires within { Within folded_limit held.old }
    ensures { (total : ℤ) → (told result, opened t.now.width (next_count (told result).0 count) (next_total (told result).0 total (readings_given count block.new)) held.new, block.new) ≡ undone_in (opened t.now.width count total held.old) frame.now block.old }
{
    transform::unstaged(t, frame, top, bottom, y, z)?;
    unfolded_in(count, t, &y[..t.width], held, &mut z[..t.width], block)
}

// The same of a frame behind others of which it is known that no question refuses it: nothing is asked.
pub fn give_back(
    t: &Tables,
    frame: &[i32],
    held: &mut [i64],
    block: &mut [i32],
    top: &mut [i64],
    bottom: &mut [i64],
    y: &mut [i64],
    z: &mut [i64],
)
    requires frame_len { (length frame.now ≡ t.now.width) × (length held.old ≡ half_width t.now.width) × (length block.old ≡ t.now.width) }
    requires wide_room { WideRoom t.now.width top.old bottom.old y.old z.old }
    requires within { Within folded_limit held.old }
    requires unrefused { Unrefused t.now.width held.old frame.now }
    ensures { (held.new ≡ take (half_width t.now.width) (Steps.unstages t.now.width frame.now)) × (block.new ≡ Steps.unfolded t.now.width held.old (drop (half_width t.now.width) (Steps.unstages t.now.width frame.now))) }
{
    transform::unstages(t, frame, top, bottom, y, z);
    let folded = &y[..t.width];
    block_between(t, folded, held, &mut z[..t.width]);
    write(folded, &z[..t.width], held, block);
}
