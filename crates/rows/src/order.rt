// Lists taken in an order, each number with its sign: cosines by the powers of 3, secants by r.
ghost use Rattle.std.specs.Prelude.{◌≡◌, ℕ, ◌%◌, ◌^◌, ◌≤◌, ◌<◌, nat_abs, length};
ghost use Rattle.integers.specs.Places;
ghost use Rattle.integers.specs.Places.{at, Within};
ghost use Rattle.rows.specs.Orders.{Order, row_at, secant_in, secant_out};

use slices::fours;
use slices::fours::Four;

// The number at a place of an order, with its sign.
pub fn row_at(places: &[i64], signs: &[i64], x: &[i64], m: usize) -> i64
    requires m_in_bounds { m < length x.now }
    requires order { Order (length x.now) places.now signs.now }
    requires m_bound { nat_abs (row_at places.now signs.now x.now m) ≤ 2 ^ 62 }
    ensures { result ≡ row_at places.now signs.now x.now m }
{
    let from = places[m] as usize;
    signs[m] * x[from]
}

// All numbers in their order.
pub fn in_order(places: &[i64], signs: &[i64], x: &[i64], out: &mut [i64])
    requires out_len { (length out.old ≡ length x.now) × (length x.now % 4 ≡ 0) }
    requires order { Order (length x.now) places.now signs.now }
    requires by_index { (m : ℕ) → m < length x.now → nat_abs (row_at places.now signs.now x.now m) ≤ 2 ^ 62 }
    ensures { out.new ≡ Places.places (length out.old) (row_at places.now signs.now x.now) }
{
    for k in (0..out.len()).step_by(4) {
        let made = Four {
            a: row_at(places, signs, x, k),
            b: row_at(places, signs, x, k + 1),
            c: row_at(places, signs, x, k + 2),
            d: row_at(places, signs, x, k + 3),
        };
        fours::put(out, k, made);
    }
}

// Secants: the even places, then the odd ones from the end, with a minus.
#[tactic(auto, unfolding(crate::specs::Orders::secant_in))]
fn secant_from(x: &[i64], j: usize) -> i64
    requires j_in_bounds { j < length x.now }
    requires x_len_bound { length x.now ≤ 64 }
    requires within { Within (2 ^ 62) x.now }
    ensures { result ≡ secant_in (length x.now) (at x.now) j }
{
    if 2 * j < x.len() {
        return x[2 * j];
    }
    0 - x[2 * x.len() - 1 - 2 * j]
}

pub fn secant_in(x: &[i64], out: &mut [i64])
    requires out_len { (length out.old ≡ length x.now) × (length x.now ≤ 64) }
    requires within { Within (2 ^ 62) x.now }
    ensures { out.new ≡ Places.places (length out.old) (secant_in (length x.now) (at x.now)) }
{
    for (j, number) in out.iter_mut().enumerate() {
        *number = secant_from(x, j);
    }
}

// The sum of row m, where a product with such a list has left it.
#[tactic(auto, unfolding(crate::specs::Orders::secant_out))]
pub fn secant_row(z: &[i64], m: usize) -> i64
    requires m_in_bounds { m < length z.now }
    requires z_len_bound { length z.now ≤ 64 }
    requires within { Within (2 ^ 62) z.now }
    ensures { result ≡ secant_out (length z.now) (at z.now) m }
{
    if m % 2 == 0 {
        return z[m / 2];
    }
    0 - z[z.len() - 1 - m / 2]
}
