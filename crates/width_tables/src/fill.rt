// What the steps of a width take, filled once for a call or a whole run, in one list: −t(m), s(m), the order of the cosines with its signs,
// its alternated signs and its way back, the leaf lists of the cosines and of the secants. So that
// all widths round by the same bits, the signs of the way back are taken 8/√M times and the secants 64/M times.
ghost use Rattle.std.specs.Prelude.{◌≡◌, map, ◌≤◌, ◌<◌, pos, length};
ghost use Rattle.tables.specs.Widths.{half_width};
ghost use Rattle.tables.specs.Numbers.{sines};
ghost use Rattle.width_tables.specs.Filled.{tables_long, list_room, Filled, LiftsFilled, ListsFilled};

use crate::{matrices, order};
use constants::{sines, tangents, widths};
use products::lists;

// How many numbers that is.
pub fn tables_long(width: usize) -> usize
    ensures { result ≡ tables_long width }
{
    match width {
        8 => 46,
        32 => 274,
        128 => 1906,
        _ => 0,
    }
}

// −t(m) and s(m).
fn fill_lifts(width: usize, quarter: &[i32], t: &mut [i64])
    requires width_nonzero { (0 < half_width width) × (length t.old ≡ tables_long width) }
    requires quarter_value { quarter.now ≡ map pos sines }
    ensures { LiftsFilled width t.old t.new }
{
    let half = width / 2;
    let step = (128 / width) as u16;
    tangents::half_tangents(width, &mut t[..half]);
    sines::cosines(quarter, step + 768, 2 * step, &mut t[half..width]);
}

// The leaf lists of both matrices; room is as long as the lists of a level need.
fn fill_lists(width: usize, scale: i64, quarter: &[i32], t: &mut [i64], room: &mut [i64])
    requires width_nonzero { (0 < half_width width) × (length t.old ≡ tables_long width) × (list_room width ≤ length room.old) × (scale ≡ pos (Rattle.tables.specs.Widths.scale width)) }
    requires quarter_value { quarter.now ≡ map pos sines }
    ensures { ListsFilled width t.old t.new }
{
    let half = width / 2;
    let from = 7 * half;
    let middle = (from + t.len()) / 2;
    let end = t.len();
    matrices::cosines(width, quarter, room);
    lists::leaf_lists(room, &mut t[from..middle], half);
    matrices::secants(width, scale, room);
    lists::leaf_lists(room, &mut t[middle..end], half);
}

pub fn fill(width: usize, t: &mut [i64], room: &mut [i64])
    requires { (0 < half_width width) × (length t.old ≡ tables_long width) × (list_room width ≤ length room.old) }
    ensures { Filled width t.new }
{
    let quarter = sines::quarter();
    let scale = widths::scale(width);
    fill_lifts(width, &quarter, t);
    order::by_threes(width, scale, t);
    fill_lists(width, scale, &quarter, t, room);
}
