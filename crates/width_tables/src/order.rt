// The order in which the cosines are one list: that of the powers of 3.
ghost use Rattle.std.specs.Prelude.{◌≡◌, ◌*◌, ◌≤◌, ◌<◌, pos, nat_abs, length};
ghost use Rattle.tables.specs.Widths.{half_width};
ghost use Rattle.width_tables.specs.Orders.{Ordered};

use constants::angles;

// The place of a power of 3, its sign, and its sign times d(place), at e; and e and its sign, times 8/√M, at the place.
fn put(t: &mut [i64], half: usize, scale: i64, e: usize, place: usize, minus: bool)
    requires { (7 * half ≤ length t.old) × (e < half) × (place < half) × (half ≤ 64) × (nat_abs scale ≤ 4) }
    ensures { t.new ≡ Rattle.width_tables.specs.Orders.order_stored half scale e place minus t.old }
{
    let sign = angles::signed(minus, 1);
    t[2 * half + e] = place as i64;
    t[3 * half + e] = sign;
    t[4 * half + e] = angles::signed(place % 2 == 1, sign);
    t[5 * half + place] = e as i64;
    t[6 * half + place] = scale * sign;
}

// Places, signs and alternated signs, and the way back, behind tangents and sines.
pub fn by_threes(width: usize, scale: i64, t: &mut [i64])
    requires { (0 < half_width width) × (7 * half_width width ≤ length t.old) × (scale ≡ pos (Rattle.tables.specs.Widths.scale width)) }
    ensures { Ordered width (half_width width) t.old t.new }
{
    let half = width / 2;
    let mut j = (128 / half) as u16;
    for e in 0..half {
        let folded = angles::first_quadrant(j, 256);
        let place = usize::from(folded.angle) * half / 256;
        put(t, half, scale, e, place, folded.minus);
        j = angles::within_turn(3 * j, 1024);
    }
}
