// Four numbers at a time: all are read before one is written.
ghost use Rattle.std.specs.Prelude.{◌≡◌, ◌+◌, ◌-◌, ◌^◌, ◌≤◌, ◌+ℤ◌, ◌-ℤ◌, length};
ghost use Rattle.integers.specs.Places.{places, at, Within};
ghost use Rattle.slices.specs.Own.Fours.{listed, stored};
ghost use Rattle.slices.specs.Own.Moves.{moved};

// Fields and no array: an array of four is slower.
#[derive(Clone, Copy)]
pub struct Four {
    pub a: i64,
    pub b: i64,
    pub c: i64,
    pub d: i64,
}

// The four numbers from place p on.
pub fn four_at(x: &[i64], p: usize) -> Four
    requires { p + 4 ≤ length x.now }
    ensures { listed result ≡ places 4 (λ j. at x.now (p + j)) }
{
    Four {
        a: x[p],
        b: x[p + 1],
        c: x[p + 2],
        d: x[p + 3],
    }
}

// From the last to the first.
pub fn reversed(x: Four) -> Four
    ensures { listed result ≡ places 4 (λ j. at (listed x) (3 - j)) }
{
    Four {
        a: x.d,
        b: x.c,
        c: x.b,
        d: x.a,
    }
}

pub fn put(x: &mut [i64], p: usize, f: Four)
    requires { p + 4 ≤ length x.old }
    ensures { x.new ≡ stored x.old p f }
{
    let Four { a, b, c, d } = f;
    x[p] = a;
    x[p + 1] = b;
    x[p + 2] = c;
    x[p + 3] = d;
}

// plus and minus differ in the operator alone; one function that is handed the operator is no plainer.
pub fn plus(x: Four, y: Four) -> Four
    requires within { Within (2 ^ 62 - 1) (listed x) }
    requires within_2 { Within (2 ^ 62 - 1) (listed y) }
    ensures { listed result ≡ places 4 (λ j. at (listed x) j +ℤ at (listed y) j) }
{
    Four {
        a: x.a + y.a,
        b: x.b + y.b,
        c: x.c + y.c,
        d: x.d + y.d,
    }
}

pub fn minus(x: Four, y: Four) -> Four
    requires within { Within (2 ^ 62 - 1) (listed x) }
    requires within_2 { Within (2 ^ 62 - 1) (listed y) }
    ensures { listed result ≡ places 4 (λ j. at (listed x) j -ℤ at (listed y) j) }
{
    Four {
        a: x.a - y.a,
        b: x.b - y.b,
        c: x.c - y.c,
        d: x.d - y.d,
    }
}

// The sum, or the difference.
#[tactic(auto, unfolding(crate::specs::Own::Moves::moved))]
pub fn sum_or_difference(less: bool, x: Four, y: Four) -> Four
    requires within { Within (2 ^ 62 - 1) (listed x) }
    requires within_2 { Within (2 ^ 62 - 1) (listed y) }
    ensures { listed result ≡ places 4 (λ j. moved less (at (listed x) j) (at (listed y) j)) }
{
    if less { minus(x, y) } else { plus(x, y) }
}
