// A level: k lists of 2h numbers, and behind them the k sums of their halves.
ghost use Rattle.std.specs.Prelude.{◌≡◌, ◌+◌, ◌-◌, ◌*◌, ◌%◌, ◌^◌, ◌≤◌, ◌+ℤ◌, length};
ghost use Rattle.integers.specs.Places.{at, Within};
ghost use Rattle.products.specs.Own.Products.{Lists, Laid, down};
ghost use Rattle.products.specs.Own.Rooms.{Small, Written, Spread, AllSpread};
ghost use Rattle.slices.specs.Own.Fours.{listed};
ghost use Rattle.slices.specs.Own.Moves.{moved};

use slices::fours;
use slices::fours::Four;

// To `to` the four numbers from x on with z added, or where `less` says so taken off: one code for both ways through the levels.
fn move_four(less: bool, room: &mut [i64], x: usize, z: Four, to: usize)
    requires { (x + 4 ≤ length room.old) × (to + 4 ≤ length room.old) × Small x (x + 4) room.old × Within (2 ^ 62 - 1) (listed z) }
    ensures { Written (λ j. moved less (at room.old (x + j)) (at (listed z) j)) to 4 room.old room.new }
{
    let y = fours::four_at(room, x);
    fours::put(room, to, fours::sum_or_difference(less, y, z));
}

// The sums of the halves of one list.
fn append_list(room: &mut [i64], from: usize, to: usize, h: usize)
    requires h_value { (h % 4 ≡ 0) × (from + (h + h) ≤ to) × (to + h ≤ length room.old) }
    requires small { Small from (from + (h + h)) room.old }
    ensures { Written (λ j. at room.old (from + j) +ℤ at room.old (from + h + j)) to h room.old room.new }
{
    for u in 0..h / 4 {
        let i = 4 * u;
        let y = fours::four_at(room, from + h + i);
        move_four(false, room, from + i, y, to + i);
    }
}

// The sums of the halves of every list, to the end.
pub fn append(room: &mut [i64], k: usize, h: usize)
    requires h_value { (h % 4 ≡ 0) × (1 ≤ k) × (k * (h + h) + k * h ≤ length room.old) }
    requires small { Small 0 (k * (h + h)) room.old }
    ensures { (a : Lists) → Laid (h + h) k a room.old → Laid h (3 * k) (down h k a) room.new }
{
    let n = h + h;
    for v in 0..k {
        append_list(room, v * n, k * n + v * h, h);
    }
}

// What stands from `from` on, added to both halves of one list, or taken off.
fn spread_list(less: bool, room: &mut [i64], to: usize, from: usize, h: usize)
    requires h_value { (h % 4 ≡ 0) × (to + (h + h) ≤ from) × (from + h ≤ length room.old) }
    requires small { Small to (from + h) room.old }
    ensures { Spread (moved less) to h from h room.old room.new }
{
    for u in 0..h / 4 {
        let i = 4 * u;
        let z = fours::four_at(room, from + i);
        let p = to + i;
        let q = to + h + i;
        move_four(less, room, p, z, p);
        move_four(less, room, q, z, q);
    }
}

// The last k of 3k lists, added to the halves of every list, or taken off.
pub fn spread_lists(less: bool, room: &mut [i64], k: usize, h: usize)
    requires h_value { (h % 4 ≡ 0) × (1 ≤ k) × (k * (h + h) + k * h ≤ length room.old) }
    requires small { Small 0 (k * (h + h) + k * h) room.old }
    ensures { AllSpread (moved less) h k k room.old room.new }
{
    let n = h + h;
    for v in 0..k {
        spread_list(less, room, v * n, k * n + v * h, h);
    }
}
