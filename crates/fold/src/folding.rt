// The fold of a block by rotations of its readings in pairs, and the fold undone.
ghost use Rattle.std.specs.Prelude.{◌≡◌, ◌++◌, ◌-◌, ◌^◌, ◌≤◌, ◌<◌, nat_abs, ◌*ℤ◌, length, set};
ghost use Rattle.integers.specs.Floor.{round};
ghost use Rattle.integers.specs.Places.{at, Within};
ghost use Rattle.tables.specs.Widths.{half_width};
ghost use Rattle.steps.specs.Limits.{folded_limit};
ghost use Rattle.steps.specs.Steps;
ghost use Rattle.steps.specs.Steps.{lower, top_of, bottom_of, rotated_a, rotated_b};
ghost use Rattle.slices.specs.Own.Moves.{moved};
ghost use Rattle.width_tables.specs.Own.Parts.{Tangents, Sines, TwoHalves};

use slices::vectors;

// Adds round(c·x) to y, or subtracts it when undoing.
fn lift(undo: bool, c: i64, x: i64, y: i64) -> i64
    requires { (nat_abs c ≤ 2 ^ 28) × (nat_abs x ≤ 2 ^ 34) × (nat_abs y ≤ 2 ^ 61) }
    ensures { result ≡ moved undo y (round 28 (c *ℤ x)) }
{
    vectors::moved(undo, y, integers::rounded(c * x, 28))
}

// The pair (a, b) rotated, or rotated back: t is −t(n), s is s(n).
fn rotated(undo: bool, t: i64, s: i64, a: i64, b: i64) -> (i64, i64)
    requires { (nat_abs t ≤ 2 ^ 28) × (nat_abs s ≤ 2 ^ 28) × (nat_abs a ≤ folded_limit) × (nat_abs b ≤ folded_limit) }
    ensures a_value { result.0 ≡ moved undo a (round 28 (s *ℤ moved undo b (round 28 (t *ℤ a)))) }
    ensures b_value { result.1 ≡ moved undo (moved undo b (round 28 (t *ℤ a))) (round 28 (t *ℤ result.0)) }
{
    let b1 = lift(undo, t, a, b);
    let a1 = lift(undo, s, b1, a);
    (a1, lift(undo, t, a1, b1))
}

// Pair n is reading n and reading N−1−n, rotated.
#[tactic(auto, using(crate::proofs::FoldLaws::lengths))]
fn pair_of(width: usize, tangents: &[i64], sines: &[i64], block: &[i32], n: usize) -> (i64, i64)
    requires n_bound { n < half_width width }
    requires tangents { Tangents width tangents.now }
    requires sines { Sines width sines.now }
    requires block_len { length block.now ≡ width }
    requires within { Within folded_limit block.now }
    ensures { (result.0 ≡ rotated_a width n (at block.now n) (at block.now (width - 1 - n))) × (result.1 ≡ rotated_b width n (at block.now n) (at block.now (width - 1 - n))) }
{
    let mirrored = width - 1 - n;
    rotated(
        false,
        tangents[n],
        sines[n],
        i64::from(block[n]),
        i64::from(block[mirrored]),
    )
}

// a at place i, then b at place j.
fn put_two(list: &mut [i64], i: usize, a: i64, j: usize, b: i64)
    requires { (i < length list.old) × (j < length list.old) }
    ensures { list.new ≡ set (set list.old i a) j b }
{
    list[i] = a;
    list[j] = b;
}

// Rotates the pairs n and n + 1 to (a, b) and (c, d), for each even n. The first of a pair is folded value M−1−n, and what was held is folded
// value M+n; the second is held instead. Folded values at even places are written to top, those at odd places to bottom.
pub fn fold(
    width: usize,
    tangents: &[i64],
    sines: &[i64],
    block: &[i32],
    held: &mut [i64],
    top: &mut [i64],
    bottom: &mut [i64],
)
    requires width_nonzero { 0 < half_width width }
    requires tangents { Tangents width tangents.now }
    requires sines { Sines width sines.now }
    requires block_len { (length block.now ≡ width) × (length held.old ≡ half_width width) }
    requires two_halves { TwoHalves width top.old bottom.old }
    requires within { Within folded_limit block.now }
    ensures held_after { held.new ≡ Rattle.steps.specs.Steps.held width block.now }
    ensures top_after { (top.new ≡ top_of width (lower width block.now ++ held.old)) × (bottom.new ≡ bottom_of width (lower width block.now ++ held.old)) }
{
    let quarter = width / 4;
    for k in 0..quarter {
        let n = 2 * k;
        let (a, b) = pair_of(width, tangents, sines, block, n);
        let (c, d) = pair_of(width, tangents, sines, block, n + 1);
        put_two(bottom, quarter - 1 - k, a, quarter + k, held[n + 1]);
        put_two(top, quarter - 1 - k, c, quarter + k, held[n]);
        put_two(held, n, b, n + 1, d);
    }
}

// Pair n is lower place M−1−n and held place n, rotated back: a is reading n, b is reading N−1−n.
#[tactic(auto, using(crate::proofs::FoldLaws::lengths))]
pub fn unfold(
    width: usize,
    tangents: &[i64],
    sines: &[i64],
    lower: &[i64],
    held: &[i64],
    block: &mut [i64],
)
    requires width_nonzero { 0 < half_width width }
    requires tangents { Tangents width tangents.now }
    requires sines { Sines width sines.now }
    requires two_halves { TwoHalves width lower.now held.now }
    requires block_len { length block.old ≡ width }
    requires within { Within folded_limit lower.now }
    requires within_2 { Within folded_limit held.now }
    ensures { block.new ≡ Rattle.steps.specs.Steps.unfolded width lower.now held.now }
{
    let half = tangents.len();
    for n in 0..half {
        let mirrored = half - 1 - n;
        let (a, b) = rotated(true, tangents[n], sines[n], lower[mirrored], held[n]);
        block[n] = a;
        block[width - 1 - n] = b;
    }
}
