// The list of numbers that each matrix of the stages is. Half a turn on, cosines and secants change their signs: so the second half of each list
// is the first half with its signs changed.
ghost use Rattle.std.specs.Prelude.{◌≡◌, map, ◌+◌, ◌-◌, ◌%◌, ◌^◌, ◌≤◌, ◌<◌, pos, neg_ℤ, nat_abs, ◌*ℤ◌, length, take};
ghost use Rattle.integers.specs.Places.{places, at, Within};
ghost use Rattle.tables.specs.Widths.{half_width};
ghost use Rattle.tables.specs.Numbers.{sines};
ghost use Rattle.slices.specs.Own.Fours.{listed};
ghost use Rattle.products.specs.Own.Rooms.{Small, Written};
ghost use Rattle.width_tables.specs.Filled.{list_room, cosine_list, secant_list};

use constants::{secants, sines};
use slices::fours;
use slices::fours::Four;

fn negated(x: Four) -> Four
    requires { Within (2 ^ 62 - 1) (listed x) }
    ensures { listed result ≡ places 4 (λ j. neg_ℤ (at (listed x) j)) }
{
    Four {
        a: 0 - x.a,
        b: 0 - x.b,
        c: 0 - x.c,
        d: 0 - x.d,
    }
}

fn half_turn_on(room: &mut [i64], half: usize)
    requires { (half % 4 ≡ 0) × (half + half ≤ length room.old) × Small 0 half room.old }
    ensures { Written (λ j. neg_ℤ (at room.old j)) half half room.old room.new }
{
    for i in (0..half).step_by(4) {
        let x = fours::four_at(room, i);
        fours::put(room, half + i, negated(x));
    }
}

// Each number of a list, taken so many times.
fn scaled(by: i64, list: &mut [i64])
    requires by_bound { nat_abs by ≤ 16 }
    requires within { Within 11000000000 list.old }
    ensures { list.new ≡ places (length list.old) (λ k. by *ℤ at list.old k) }
{
    for x in list.iter_mut() {
        *x *= by;
    }
}

pub fn cosines(width: usize, quarter: &[i32], room: &mut [i64])
    requires width_nonzero { (0 < half_width width) × (list_room width ≤ length room.old) }
    requires quarter_value { quarter.now ≡ map pos sines }
    ensures { take width room.new ≡ cosine_list width }
{
    let half = width / 2;
    sines::cosines_by_threes(quarter, (128 / half) as u16, &mut room[..half]);
    half_turn_on(room, half);
}

pub fn secants(width: usize, scale: i64, room: &mut [i64])
    requires { (0 < half_width width) × (list_room width ≤ length room.old) × (scale ≡ pos (Rattle.tables.specs.Widths.scale width)) }
    ensures { take width room.new ≡ secant_list width }
{
    let half = width / 2;
    secants::secants(width, &mut room[..half]);
    scaled(scale * scale, &mut room[..half]);
    half_turn_on(room, half);
}
