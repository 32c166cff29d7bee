// Taking a block where the held values of the record are lent, and stay where they lie.
ghost use Rattle.std.specs.Prelude.{◌≡◌, ◌≤◌, ◌<◌, length};
ghost use Rattle.integers.specs.Places.{Within};
ghost use Rattle.tables.specs.Widths.{half_width};
ghost use Rattle.steps.specs.Limits.{reading_limit, folded_limit};
ghost use Rattle.steps.specs.Steps.{held, frame};
ghost use Rattle.runs.specs.Answers.{told};
ghost use Rattle.runs.specs.Record.{record_of, next_count, next_total};
ghost use Rattle.runs.specs.Forward.{taken};
ghost use Rattle.width_tables.specs.Filled.{tables_long, list_room, product_room};

use frames::step;
use gate::questions;
use runs::answer::{Answer, Refusal};
use runs::limits;
use slices::room;
use width_tables::fill;
use width_tables::parts::Tables;

// Room is cleared when it is made, so there are two sizes: at width 8, room for 128 costs more than the step.
fn in_room<const T: usize, const H: usize, const P: usize>(
    width: usize,
    block: &[i32],
    held: &mut [i64],
    frame: &mut [i32],
)
    requires room_wide { (tables_long width ≤ T) × (half_width width ≤ H) × (list_room width ≤ P) × (product_room width ≤ P) }
    requires room_few { (T ≤ 1906) × (H ≤ 64) × (P ≤ 648) }
    requires width_nonzero { 0 < half_width width }
    requires block_len { (length block.now ≡ width) × (length held.old ≡ half_width width) × (length frame.old ≡ width) }
    requires within { Within folded_limit held.old }
    requires within_2 { Within reading_limit block.now }
    ensures { (held.new ≡ Rattle.steps.specs.Steps.held width block.now) × (frame.new ≡ Rattle.steps.specs.Steps.frame width held.old block.now) }
{
    let half = width / 2;
    let long = fill::tables_long(width);
    let mut t = room::zeros::<T>();
    let mut top = room::zeros::<H>();
    let mut bottom = room::zeros::<H>();
    let mut y = room::zeros::<P>();
    let mut z = room::zeros::<P>();
    fill::fill(width, &mut t[..long], &mut y);
    let tables = Tables {
        width,
        numbers: &t[..long],
    };
    step::step(
        &tables,
        block,
        held,
        frame,
        &mut top[..half],
        &mut bottom[..half],
        &mut y,
        &mut z,
    );
}

pub fn step_in(width: usize, block: &[i32], held: &mut [i64], frame: &mut [i32])
    requires width_nonzero { 0 < half_width width }
    requires block_len { (length block.now ≡ width) × (length held.old ≡ half_width width) × (length frame.old ≡ width) }
    requires within { Within folded_limit held.old }
    requires within_2 { Within reading_limit block.now }
    ensures { (held.new ≡ Rattle.steps.specs.Steps.held width block.now) × (frame.new ≡ Rattle.steps.specs.Steps.frame width held.old block.now) }
{
    if width <= 32 {
        in_room::<274, 16, 72>(width, block, held, frame);
    } else {
        in_room::<1906, 64, 648>(width, block, held, frame);
    }
}

// The record is handed back in the held values and, where the call has worked, in one more of the count and the block's readings added to the
// total, by whoever has these numbers.
pub fn take(
    width: usize,
    count: usize,
    finished: bool,
    total: i64,
    held: &mut [i64],
    block: &[i32],
    frame: &mut [i32],
) -> Answer
    requires { length held.old ≡ 64 }
    ensures { (told result, record_of width (next_count (told result).0 count) held.new finished (next_total (told result).0 total block.now), frame.new) ≡ taken (record_of width count held.old finished total) block.now frame.old }
{
    questions::admitted(
        limits::BLOCK_LIMIT,
        width,
        count,
        finished,
        total,
        held,
        block.len(),
        frame.len(),
    )?;
    questions::fault_of(block)?;
    let half = width / 2;
    step_in(width, block, &mut held[..half], frame);
    Ok(())
}
