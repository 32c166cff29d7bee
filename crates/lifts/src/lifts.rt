// The lifts of the stages. Each adds rounded amounts to one half of a frame, or subtracts them when undoing: four places at a time, all read
// before one is written.
ghost use Rattle.std.specs.Prelude.{◌≡◌, ℕ, ◌+◌, ◌-◌, ◌%◌, ◌^◌, ◌<◌, ◌≤◌, nat_abs, ◌+ℤ◌, ◌*ℤ◌, length};
ghost use Rattle.integers.specs.Floor.{round};
ghost use Rattle.integers.specs.Places.{places, at, Within};
ghost use Rattle.slices.specs.Own.Fours.{listed, stored};
ghost use Rattle.slices.specs.Own.Moves.{moved};
ghost use Rattle.rows.specs.Orders.{Order, row_at, secant_out};
ghost use Rattle.lifts.specs.Own.Moves;
ghost use Rattle.lifts.specs.Own.Moves.{Scaled, Thirds, moved_four};

use rows::order;
use slices::fours;
use slices::fours::Four;

// Adds these amounts to the four numbers from place i on, or subtracts them when undoing.
fn move_four(undo: bool, y: &mut [i64], i: usize, amounts: Four)
    requires i_in_bounds { i + 4 ≤ length y.old }
    requires by_index { (j : ℕ) → nat_abs (at y.old (i + j)) ≤ 2 ^ 60 }
    requires within { Within (2 ^ 61) (listed amounts) }
    ensures { y.new ≡ stored y.old i (moved_four undo y.old i amounts) }
{
    let made = fours::sum_or_difference(undo, fours::four_at(y, i), amounts);
    fours::put(y, i, made);
}

// What stage 1 adds at a place: top and the rounded sum. Row m of the cosine sums is y at back(m), with the sign flips(m).
fn first_at(back: &[i64], flips: &[i64], y: &[i64], top: &[i64], i: usize) -> i64
    requires i_in_bounds { (i < length y.now) × (length top.now ≡ length y.now) }
    requires order { Order (length y.now) back.now flips.now }
    requires scaled { Scaled back.now flips.now y.now }
    requires within { Within (2 ^ 60) top.now }
    ensures { (result ≡ at top.now i +ℤ round 30 (row_at back.now flips.now y.now i)) × (nat_abs result ≤ 2 ^ 61) }
{
    top[i] + integers::rounded(order::row_at(back, flips, y, i), 30)
}

// Stage 1: adds top and the rounded sums to bottom, or subtracts them when undoing.
pub fn first(undo: bool, back: &[i64], flips: &[i64], y: &[i64], top: &[i64], bottom: &mut [i64])
    requires bottom_len { length bottom.old % 4 ≡ 0 }
    requires y_len { (length y.now ≡ length bottom.old) × (length top.now ≡ length bottom.old) }
    requires order { Order (length y.now) back.now flips.now }
    requires scaled { Scaled back.now flips.now y.now }
    requires within { Within (2 ^ 60) top.now }
    requires within_2 { Within (2 ^ 60) bottom.old }
    ensures { bottom.new ≡ places (length bottom.old) (λ i. moved undo (at bottom.old i) (at top.now i +ℤ round 30 (row_at back.now flips.now y.now i))) }
{
    for i in (0..bottom.len()).step_by(4) {
        let amounts = Four {
            a: first_at(back, flips, y, top, i),
            b: first_at(back, flips, y, top, i + 1),
            c: first_at(back, flips, y, top, i + 2),
            d: first_at(back, flips, y, top, i + 3),
        };
        move_four(undo, bottom, i, amounts);
    }
}

// −d(i)·x.
#[tactic(auto, using(crate::proofs::MoveLaws::flips))]
fn flipped(i: usize, x: i64) -> i64
    requires { nat_abs x ≤ 2 ^ 61 }
    ensures { result ≡ Moves.flipped i x }
{
    if i % 2 == 1 {
        return x;
    }
    0 - x
}

// Stage 2 at a place: −d·top plus the rounded sum. Undoing subtracts the sum first, and then multiplies by −d.
fn second_at(undo: bool, back: &[i64], flips: &[i64], y: &[i64], top: &[i64], i: usize) -> i64
    requires i_in_bounds { i < length top.now }
    requires y_len { length y.now ≡ length top.now }
    requires order { Order (length y.now) back.now flips.now }
    requires scaled { Scaled back.now flips.now y.now }
    requires i_bound { nat_abs (at top.now i) ≤ 2 ^ 60 }
    ensures { result ≡ Moves.stage2_at undo i (at top.now i) (round 31 (row_at back.now flips.now y.now i)) }
{
    let amount = integers::rounded(order::row_at(back, flips, y, i), 31);
    if undo {
        return flipped(i, top[i] - amount);
    }
    flipped(i, top[i]) + amount
}

pub fn second(undo: bool, back: &[i64], flips: &[i64], y: &[i64], top: &mut [i64])
    requires top_len { length top.old % 4 ≡ 0 }
    requires y_len { length y.now ≡ length top.old }
    requires order { Order (length y.now) back.now flips.now }
    requires scaled { Scaled back.now flips.now y.now }
    requires within { Within (2 ^ 60) top.old }
    ensures { top.new ≡ places (length top.old) (λ i. Moves.stage2_at undo i (at top.old i) (round 31 (row_at back.now flips.now y.now i))) }
{
    for i in (0..top.len()).step_by(4) {
        let made = Four {
            a: second_at(undo, back, flips, y, top, i),
            b: second_at(undo, back, flips, y, top, i + 1),
            c: second_at(undo, back, flips, y, top, i + 2),
            d: second_at(undo, back, flips, y, top, i + 3),
        };
        fours::put(top, i, made);
    }
}

// What stage 3 adds at a place, before it is divided by 2^34: from the secant sum, the cosine sum times `times`, and −t·top.
fn third_amount(times: i64, secants: i64, cosines: i64, tangent: i64) -> i64
    requires { (nat_abs times ≤ 16) × (nat_abs secants ≤ 2 ^ 60) × (nat_abs cosines ≤ 2 ^ 56) × (nat_abs tangent ≤ 2 ^ 54) }
    ensures { (result ≡ Moves.amount times secants cosines tangent) × (nat_abs result ≤ 2 ^ 62) }
{
    0 - secants - times * cosines + 64 * tangent
}

// What stage 3 adds at place i, where j is the same place counted from the end: the three amounts are added up and rounded once.
fn third_at(
    tangents: &[i64],
    top: &[i64],
    z: &[i64],
    back: &[i64],
    flips: &[i64],
    y: &[i64],
    i: usize,
    j: usize,
) -> i64
    requires i_in_bounds { (i < length y.now) × (j < length y.now) }
    requires tangents_len { (length tangents.now ≡ length y.now) × (length top.now ≡ length y.now) × (length z.now ≡ length y.now) × (length y.now ≤ 64) }
    requires order { Order (length y.now) back.now flips.now }
    requires thirds { Thirds z.now back.now flips.now y.now }
    requires within { Within (2 ^ 28) tangents.now }
    requires within_2 { Within 6000000 top.now }
    ensures { (result ≡ round 34 (Moves.stage3_amount (secant_out (length y.now) (at z.now) i) (row_at back.now flips.now y.now i) (at tangents.now j *ℤ at top.now j))) × (nat_abs result ≤ 2 ^ 61) }
{
    let sum = third_amount(
        16,
        order::secant_row(z, i),
        order::row_at(back, flips, y, i),
        tangents[j] * top[j],
    );
    integers::rounded(sum, 34)
}

pub fn third(
    undo: bool,
    tangents: &[i64],
    top: &[i64],
    z: &[i64],
    back: &[i64],
    flips: &[i64],
    y: &[i64],
    bottom: &mut [i64],
)
    requires bottom_len { length bottom.old % 4 ≡ 0 }
    requires tangents_len { (length tangents.now ≡ length bottom.old) × (length top.now ≡ length bottom.old) × (length z.now ≡ length bottom.old) × (length y.now ≡ length bottom.old) × (length bottom.old ≤ 64) }
    requires order { Order (length y.now) back.now flips.now }
    requires thirds { Thirds z.now back.now flips.now y.now }
    requires within { Within (2 ^ 28) tangents.now }
    requires within_2 { Within 6000000 top.now }
    requires within_3 { Within (2 ^ 60) bottom.old }
    ensures { bottom.new ≡ places (length bottom.old) (λ i. moved undo (at bottom.old i) (round 34 (Moves.stage3_amount (secant_out (length bottom.old) (at z.now) i) (row_at back.now flips.now y.now i) (at tangents.now (length bottom.old - 1 - i) *ℤ at top.now (length bottom.old - 1 - i))))) }
{
    for i in (0..bottom.len()).step_by(4) {
        let far = bottom.len() - 4 - i;
        let amounts = Four {
            a: third_at(tangents, top, z, back, flips, y, i, far + 3),
            b: third_at(tangents, top, z, back, flips, y, i + 1, far + 2),
            c: third_at(tangents, top, z, back, flips, y, i + 2, far + 1),
            d: third_at(tangents, top, z, back, flips, y, i + 3, far),
        };
        move_four(undo, bottom, i, amounts);
    }
}

// A rounded product.
fn rounded_product(c: i64, x: i64) -> i64
    requires { (nat_abs c ≤ 2 ^ 28) × (nat_abs x ≤ 2 ^ 34) }
    ensures { (result ≡ round 28 (c *ℤ x)) × (nat_abs result ≤ 2 ^ 61) }
{
    integers::rounded(c * x, 28)
}

// Adds round(c·x) to each of the four numbers from place i on, or subtracts it when undoing; x is read from its end.
fn move_by_products(undo: bool, c: Four, x: Four, y: &mut [i64], i: usize)
    requires i_in_bounds { i + 4 ≤ length y.old }
    requires by_index { (j : ℕ) → nat_abs (at y.old (i + j)) ≤ 2 ^ 60 }
    requires within { Within (2 ^ 28) (listed c) }
    requires within_2 { Within (2 ^ 34) (listed x) }
    ensures { y.new ≡ stored y.old i (moved_four undo y.old i (Moves.rounded_products c x)) }
{
    let amounts = Four {
        a: rounded_product(c.a, x.d),
        b: rounded_product(c.b, x.c),
        c: rounded_product(c.c, x.b),
        d: rounded_product(c.d, x.a),
    };
    move_four(undo, y, i, amounts);
}

// Stage 4: adds round(c·x) to y at each place, or subtracts it when undoing; x is read from its end.
pub fn fourth(undo: bool, c: &[i64], x: &[i64], y: &mut [i64])
    requires y_len { length y.old % 4 ≡ 0 }
    requires c_len { (length c.now ≡ length y.old) × (length x.now ≡ length y.old) }
    requires within { Within (2 ^ 28) c.now }
    requires within_2 { Within (2 ^ 34) x.now }
    requires within_3 { Within (2 ^ 60) y.old }
    ensures { y.new ≡ places (length y.old) (λ i. moved undo (at y.old i) (round 28 (at c.now i *ℤ at x.now (length y.old - 1 - i)))) }
{
    for i in (0..y.len()).step_by(4) {
        let far = y.len() - 4 - i;
        move_by_products(undo, fours::four_at(c, i), fours::four_at(x, far), y, i);
    }
}

// Stage 5: the same, where c is read from its end too.
pub fn fifth(undo: bool, c: &[i64], x: &[i64], y: &mut [i64])
    requires y_len { length y.old % 4 ≡ 0 }
    requires c_len { (length c.now ≡ length y.old) × (length x.now ≡ length y.old) }
    requires within { Within (2 ^ 28) c.now }
    requires within_2 { Within (2 ^ 34) x.now }
    requires within_3 { Within (2 ^ 60) y.old }
    ensures { y.new ≡ places (length y.old) (λ i. moved undo (at y.old i) (round 28 (at c.now (length y.old - 1 - i) *ℤ at x.now (length y.old - 1 - i)))) }
{
    for i in (0..y.len()).step_by(4) {
        let far = y.len() - 4 - i;
        let factors = fours::reversed(fours::four_at(c, far));
        move_by_products(undo, factors, fours::four_at(x, far), y, i);
    }
}
