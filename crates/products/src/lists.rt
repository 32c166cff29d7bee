// The leaf lists of a table: its lists halved level by level, and nine numbers of each that is left.
ghost use Rattle.std.specs.Prelude.{◌≡◌, ◌++◌, ℕ, ◌+◌, ◌-◌, ◌*◌, ◌%◌, ◌^◌, ◌≤◌, ◌<◌, nat_abs, length, take};
ghost use Rattle.integers.specs.Places.{at, Within};
ghost use Rattle.products.specs.Own.Products.{Lists, Laid, Power, down_l, tables};
ghost use Rattle.products.specs.Own.Rooms.{Small, Written, AllWritten};
ghost use Rattle.slices.specs.Own.Fours.{listed};
ghost use Rattle.products.specs.Own.Whole.{LeafLists};
ghost use Rattle.products.specs.Own.Tables.{middles, Tabled};

use crate::levels;
use slices::fours;
use slices::fours::Four;

// The h numbers from `from` on, to `to`, which lies behind them.
fn copy_list(room: &mut [i64], from: usize, to: usize, h: usize)
    requires { (h % 4 ≡ 0) × (from + h ≤ to) × (to + h ≤ length room.old) }
    ensures { Written (λ j. at room.old (from + j)) to h room.old room.new }
{
    for u in 0..h / 4 {
        let i = 4 * u;
        let x = fours::four_at(room, from + i);
        fours::put(room, to + i, x);
    }
}

// The middles of k lists of 4q numbers, to the end.
fn copy_middles(room: &mut [i64], k: usize, q: usize)
    requires { (q % 4 ≡ 0) × (1 ≤ k) × (k * (q + q + (q + q)) + k * (q + q) ≤ length room.old) }
    ensures { AllWritten (middles q room.old) (k * (q + q + (q + q))) (q + q) k room.old room.new }
{
    let h = q + q;
    let n = h + h;
    for v in 0..k {
        let from = v * n + q;
        copy_list(room, from, k * n + v * h, h);
    }
}

// k lists of 4q numbers become 3k of 2q.
fn halve_lists(room: &mut [i64], k: usize, q: usize)
    requires q_value { (q % 4 ≡ 0) × (1 ≤ k) × (k * (q + q + (q + q)) + k * (q + q) ≤ length room.old) }
    requires small { Small 0 (k * (q + q + (q + q))) room.old }
    ensures { (L : Lists) → Laid (q + q + (q + q)) k L room.old → Laid (q + q) (3 * k) (down_l q k L) room.new }
{
    copy_middles(room, k, q);
    levels::spread_lists(true, room, k, q + q);
}

// The list of 2m numbers down to lists of eight: how many.
fn halve_levels(room: &mut [i64], m: usize) -> usize
    requires { Tabled m room.old }
    ensures { (p : Power m) → (result ≡ 3 ^ p.levels) × Laid 8 result (tables m (take (m + m) room.old) p.levels) room.new }
{
    let mut k = 1;
    let mut n = m;
    while 4 < n {
        n /= 2;
        halve_lists(room, k, n);
        k *= 3;
    }
    k
}

// The nine numbers of a leaf from its list of eight, x and y, to place p.
fn put_nine(out: &mut [i64], p: usize, x: Four, y: Four)
    requires { (p + 9 ≤ length out.old) × Within (2 ^ 60) (listed x) × Within (2 ^ 60) (listed y) }
    ensures { Written (at (Rattle.products.specs.Own.Products.nine (at (listed x ++ listed y)))) p 9 out.old out.new }
{
    let c = x.c;
    let d = x.d;
    let e = y.a;
    let u = x.b - d;
    let w = y.b - d;
    let low = Four {
        a: x.a - c - u,
        b: c - e - u,
        c: e - c - w,
        d: y.c - e - w,
    };
    let high = Four {
        a: u,
        b: w,
        c: c - d,
        d: e - d,
    };
    fours::put(out, p, low);
    fours::put(out, p + 4, high);
    out[p + 8] = d;
}

// Nine numbers of each of k lists of eight.
fn nines(lists: &[i64], out: &mut [i64], k: usize)
    requires k_in_bounds { (k * 8 ≤ length lists.now) × (k * 9 ≤ length out.old) }
    requires by_index { (p : ℕ) → p < k * 8 → nat_abs (at lists.now p) ≤ 2 ^ 60 }
    ensures { (L : Lists) → Laid 8 k L lists.now → Laid 9 k (λ v. at (Rattle.products.specs.Own.Products.nine (L v))) out.new }
{
    for v in 0..k {
        let x = fours::four_at(lists, v * 8);
        let y = fours::four_at(lists, v * 8 + 4);
        put_nine(out, v * 9, x, y);
    }
}

// The leaf lists of the table that the first 2m numbers of the room are.
pub fn leaf_lists(room: &mut [i64], out: &mut [i64], m: usize)
    requires tabled { Tabled m room.old }
    requires levels_in_bounds { (p : Power m) → 3 ^ p.levels * 9 ≤ length out.old }
    ensures { LeafLists m (take (m + m) room.old) out.new }
{
    let k = halve_levels(room, m);
    nines(room, out, k);
}
