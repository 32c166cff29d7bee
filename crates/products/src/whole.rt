// The Hankel product of a list of 2m numbers with one of m, in one room for all levels.
ghost use Rattle.std.specs.Prelude.{◌≡◌, List, [], ◌^◌, ℤ, take};
ghost use Rattle.integers.specs.Places.{places, at};
ghost use Rattle.products.specs.Own.Products.{Power, Laid, products, numbers};
ghost use Rattle.products.specs.Own.Whole.{Roomy, ProductInput, LeafLists, Multiplied, Rising};

use crate::{leaf, levels};

// The m numbers down to leaves of four: how many leaves.
fn descend(room: &mut [i64], m: usize) -> usize
    requires { Roomy m [] room.old }
    ensures { (p : Power m) → (result ≡ 3 ^ p.levels) × Laid 4 result (numbers m (take m room.old) p.levels) room.new }
{
    let mut k = 1;
    let mut n = m;
    while 4 < n {
        n /= 2;
        levels::append(room, k, n);
        k *= 3;
    }
    k
}

// The products of k leaves up to the product of the m numbers.
fn ascend(room: &mut [i64], m: usize, leaves: usize)
    requires { Rising m leaves room.old }
    ensures { (L a : List ℤ) → Multiplied m L a room.old → Laid m 1 (products m (Rattle.products.specs.Own.Products.tables m L 0) (numbers m a 0)) room.new }
{
    let mut k = leaves;
    let mut n = 4;
    while n < m {
        k /= 3;
        levels::spread_lists(false, room, k, n);
        n += n;
    }
}

// The first m numbers of the room become their product with the table L, of which `lists` has the leaf lists.
pub fn product(lists: &[i64], room: &mut [i64], m: usize)
    requires { ProductInput m lists.now room.old }
    ensures { (L : List ℤ) → LeafLists m L lists.now → take m room.new ≡ places m (Rattle.products.specs.Own.Products.product m (at L) (at (take m room.old))) }
{
    let k = descend(room, m);
    leaf::leaves(lists, room, k);
    ascend(room, m, k);
}
