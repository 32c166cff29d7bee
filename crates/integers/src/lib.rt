// Whole numbers: division that floors below zero too, and rounding to the nearest with halves up.
#![tactic(auto)]

ghost use Rattle.std.specs.Prelude.{◌≡◌, ◌^◌, ◌≤◌, ◌<◌, nat_abs};
ghost use Rattle.integers.specs.Floor.{above, floor_div, round};

// The floor of v / p, and 0 for a divisor that is not above zero. What is divided is never below zero.
pub fn floor_div(v: i64, p: i64) -> i64
    ensures { result ≡ floor_div v (above p) }
{
    if p <= 0 {
        return 0;
    }
    if v < 0 {
        return -1 - (-1 - v) / p;
    }
    v / p
}

// v / 2^k rounded, halves up: the floor of (v + 2^(k−1)) / 2^k.
pub fn rounded(v: i64, k: u32) -> i64
    requires { (0 < k) × (k < 63) × (nat_abs v ≤ 2 ^ 62) }
    ensures { result ≡ round k v }
{
    floor_div(v + (1 << (k - 1)), 1 << k)
}
