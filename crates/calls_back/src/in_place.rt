// Taking a frame back where the held values of the record are lent, and stay where they lie.
ghost use Rattle.std.specs.Prelude.{◌≡◌, ◌≤◌, ◌<◌, ℤ, nat_abs, ◌+ℤ◌, length};
ghost use Rattle.integers.specs.Places.{Within};
ghost use Rattle.integers.specs.Vectors.{sum_of};
ghost use Rattle.tables.specs.Widths.{half_width};
ghost use Rattle.width_tables.specs.Filled.{tables_long, list_room, product_room};
ghost use Rattle.steps.specs.Limits.{folded_limit};
ghost use Rattle.runs.specs.Answers.{told};
ghost use Rattle.runs.specs.Record.{record_of, next_count, next_total, readings_given, opened};
ghost use Rattle.runs.specs.Back.{undone_in, taken_back};
ghost use Rattle.runs.specs.Totals.{total_limit};

use frames::undo;
use gate::questions;
use runs::answer::Answer;
use runs::limits;
use slices::room;
use width_tables::fill;
use width_tables::parts::Tables;

// Room is cleared when it is made, so there are two sizes: at width 8, room for 128 costs more than the step.
fn in_room<const T: usize, const H: usize, const P: usize>(
    width: usize,
    count: usize,
    frame: &[i32],
    held: &mut [i64],
    block: &mut [i32],
) -> Answer
    requires room_wide { (tables_long width ≤ T) × (half_width width ≤ H) × (list_room width ≤ P) × (product_room width ≤ P) × (width ≤ P) }
    requires room_few { (T ≤ 1906) × (H ≤ 64) × (P ≤ 648) }
    requires width_nonzero { 0 < half_width width }
    requires frame_len { (length frame.now ≡ width) × (length held.old ≡ half_width width) × (length block.old ≡ width) }
    requires within { Within folded_limit held.old }
    ensures { (total : ℤ) → (told result, opened width (next_count (told result).0 count) (next_total (told result).0 total (readings_given count block.new)) held.new, block.new) ≡ undone_in (opened width count total held.old) frame.now block.old }
{
    let half = width / 2;
    let long = fill::tables_long(width);
    let mut t = room::zeros::<T>();
    let mut top = room::zeros::<H>();
    let mut bottom = room::zeros::<H>();
    let mut y = room::zeros::<P>();
    let mut z = room::zeros::<P>();
    fill::fill(width, &mut t[..long], &mut y);
    let tables = Tables {
        width,
        numbers: &t[..long],
    };
    undo::undo(
        count,
        &tables,
        frame,
        held,
        block,
        &mut top[..half],
        &mut bottom[..half],
        &mut y,
        &mut z,
    )
}

fn undo_in(width: usize, count: usize, frame: &[i32], held: &mut [i64], block: &mut [i32]) -> Answer
    requires width_nonzero { 0 < half_width width }
    requires frame_len { (length frame.now ≡ width) × (length held.old ≡ half_width width) × (length block.old ≡ width) }
    requires within { Within folded_limit held.old }
    ensures { (total : ℤ) → (told result, opened width (next_count (told result).0 count) (next_total (told result).0 total (readings_given count block.new)) held.new, block.new) ≡ undone_in (opened width count total held.old) frame.now block.old }
{
    if width <= 32 {
        in_room::<274, 16, 72>(width, count, frame, held, block)
    } else {
        in_room::<1906, 64, 648>(width, count, frame, held, block)
    }
}

// The total after a frame that is the first or has given a block.
pub fn total_after(total: i64, count: usize, answer: Answer, block: &[i32]) -> i64
    requires { (told answer).0 ≡ 0 → (length block.now ≤ 128) × (nat_abs (total +ℤ sum_of (readings_given count block.now)) ≤ total_limit) }
    ensures { result ≡ next_total (told answer).0 total (readings_given count block.now) }
{
    if count == 0 {
        return questions::next_total(total, answer, &block[..0]);
    }
    questions::next_total(total, answer, block)
}

// The record is handed back in the held values and, where the call has worked, in one more of the count and in `total_after`.
pub fn take(
    width: usize,
    count: usize,
    finished: bool,
    total: i64,
    held: &mut [i64],
    frame: &[i32],
    block: &mut [i32],
) -> Answer
    requires { length held.old ≡ 64 }
    ensures { (told result, record_of width (next_count (told result).0 count) held.new finished (next_total (told result).0 total (readings_given count block.new)), block.new) ≡ taken_back (record_of width count held.old finished total) frame.now block.old }
{
    questions::admitted(
        limits::FRAME_LIMIT,
        width,
        count,
        finished,
        total,
        held,
        frame.len(),
        block.len(),
    )?;
    let half = width / 2;
    undo_in(width, count, frame, &mut held[..half], block)
}
