// Work on lists of 64-bit numbers, place by place.
ghost use Rattle.std.specs.Prelude.{◌≡◌, ◌+◌, ◌%◌, ◌^◌, ◌≤◌, nat_abs, length};
ghost use Rattle.integers.specs.Places.{places, at, Within};
ghost use Rattle.integers.specs.Vectors.{sum_of};
ghost use Rattle.slices.specs.Own.Moves.{moved, woven_at};

// Each number to its own place; `copy_from_slice` makes a `memmove` of it, which the archive is not to need.
pub fn copy(x: &[i64], out: &mut [i64])
    requires { length x.now ≡ length out.old }
    ensures { out.new ≡ x.now }
{
    for i in 0..out.len() {
        out[i] = x[i];
    }
}

#[tactic(auto, unfolding(crate::specs::Own::Moves::moved))]
pub fn moved(undo: bool, y: i64, amount: i64) -> i64
    requires { (nat_abs y ≤ 2 ^ 61) × (nat_abs amount ≤ 2 ^ 61) }
    ensures { result ≡ Rattle.slices.specs.Own.Moves.moved undo y amount }
{
    if undo { y - amount } else { y + amount }
}

// top at the even places, bottom at the odd ones.
pub fn interleave(top: &[i64], bottom: &[i64], out: &mut [i64])
    requires { (length top.now ≡ length bottom.now) × (length out.old ≡ length top.now + length top.now) }
    ensures { out.new ≡ places (length out.old) (woven_at top.now bottom.now) }
{
    for i in 0..top.len() {
        out[2 * i] = top[i];
        out[2 * i + 1] = bottom[i];
    }
}

// The numbers, each as an i64. Four are read before one is written: one at a time is slower.
pub fn widen(x: &[i32], out: &mut [i64])
    requires { (length x.now ≡ length out.old) × (length x.now % 4 ≡ 0) }
    ensures { out.new ≡ x.now }
{
    for i in (0..out.len()).step_by(4) {
        let (a, b, c, d) = (x[i], x[i + 1], x[i + 2], x[i + 3]);
        out[i] = i64::from(a);
        out[i + 1] = i64::from(b);
        out[i + 2] = i64::from(c);
        out[i + 3] = i64::from(d);
    }
}

// The numbers, each as an i32; four at a time, as in widen.
pub fn narrow(x: &[i64], out: &mut [i32])
    requires x_len { (length x.now ≡ length out.old) × (length x.now % 4 ≡ 0) }
    requires within { Within (2 ^ 30) x.now }
    ensures { out.new ≡ x.now }
{
    for i in (0..out.len()).step_by(4) {
        let (a, b, c, d) = (x[i], x[i + 1], x[i + 2], x[i + 3]);
        out[i] = a as i32;
        out[i + 1] = b as i32;
        out[i + 2] = c as i32;
        out[i + 3] = d as i32;
    }
}

// The sum of at most 128 numbers.
pub fn sum(x: &[i32]) -> i64
    requires { length x.now ≤ 128 }
    ensures { result ≡ sum_of x.now }
{
    let mut total: i64 = 0;
    for n in 0..x.len() {
        total += i64::from(x[n]);
    }
    total
}
