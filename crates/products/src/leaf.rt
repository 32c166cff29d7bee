// The leaves: products of four numbers with a list of seven, from nine numbers made of the list beforehand.
ghost use Rattle.std.specs.Prelude.{◌≡◌, ℕ, ◌+◌, ◌*◌, ◌≤◌, ℤ, ◌+ℤ◌, ◌*ℤ◌, length};
ghost use Rattle.integers.specs.Places.{places, at};
ghost use Rattle.products.specs.Own.Products.{Lists, Laid, product, products, nine};
ghost use Rattle.slices.specs.Own.Fours.{listed};
ghost use Rattle.products.specs.Own.Leaf.{listed_nine, Fit, Leaf, Leaves};

use slices::fours;
use slices::fours::Four;

// Names rather than an array, as in `Four`: for speed.
#[derive(Clone, Copy)]
pub struct Nine {
    pub a: i64,
    pub b: i64,
    pub c: i64,
    pub d: i64,
    pub e: i64,
    pub f: i64,
    pub g: i64,
    pub h: i64,
    pub i: i64,
}

// The nine numbers from place p on.
fn nine_at(x: &[i64], p: usize) -> Nine
    requires { p + 9 ≤ length x.now }
    ensures { listed_nine result ≡ places 9 (λ j. at x.now (p + j)) }
{
    let low = fours::four_at(x, p);
    let high = fours::four_at(x, p + 4);
    Nine {
        a: low.a,
        b: low.b,
        c: low.c,
        d: low.d,
        e: high.a,
        f: high.b,
        g: high.c,
        h: high.d,
        i: x[p + 8],
    }
}

// Two numbers, by three products.
fn two(l: i64, m: i64, n: i64, x: i64, y: i64) -> (i64, i64)
    requires { Fit l m n x y }
    ensures { (result.0 ≡ l *ℤ x +ℤ n *ℤ (x +ℤ y)) × (result.1 ≡ m *ℤ y +ℤ n *ℤ (x +ℤ y)) }
{
    let z = n * (x + y);
    (l * x + z, m * y + z)
}

// Four numbers, by nine products.
pub fn leaf(l: Nine, x: Four) -> Four
    requires { Leaf (listed_nine l) (listed x) }
    ensures { (g : ℕ → ℤ) → listed_nine l ≡ nine g → listed result ≡ places 4 (product 4 g (at (listed x))) }
{
    let (p, q) = two(l.a, l.b, l.e, x.a, x.b);
    let (r, s) = two(l.c, l.d, l.f, x.c, x.d);
    let (t, u) = two(l.g, l.h, l.i, x.a + x.c, x.b + x.d);
    Four {
        a: p + t,
        b: q + u,
        c: r + t,
        d: s + u,
    }
}

// Every leaf of a room.
pub fn leaves(lists: &[i64], room: &mut [i64], k: usize)
    requires { Leaves k lists.now room.old }
    ensures { (L a : Lists) → Laid 9 k (λ v. at (nine (L v))) lists.now → Laid 4 k a room.old → Laid 4 k (products 4 L a) room.new }
{
    for v in 0..k {
        let x = fours::four_at(room, v * 4);
        fours::put(room, v * 4, leaf(nine_at(lists, v * 9), x));
    }
}
