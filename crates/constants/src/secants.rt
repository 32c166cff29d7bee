// Secants 1/cos(rπ/N), times 2^28.
ghost use Rattle.std.specs.Prelude.{◌≡◌, map, ◌+◌, ◌*◌, ◌≤◌, ◌<◌, pos, length};
ghost use Rattle.integers.specs.Places.{places};
ghost use Rattle.tables.specs.Widths.{half_width};
ghost use Rattle.tables.specs.Numbers.{secants, secant_of};

use crate::angles;

static SECANTS_8: [i64; 2] = [290552444, 701455651];

static SECANTS_32: [i64; 8] = [
    269734300, 280514308, 304375761, 347259801, 423137291, 569446997, 924731745, 2738658311,
];

static SECANTS_128: [i64; 32] = [
    268516328,
    269164770,
    270469513,
    272446511,
    275120293,
    278524717,
    282704043,
    287714392,
    293625674,
    300524130,
    308515653,
    317730157,
    328327351,
    340504436,
    354506497,
    370640714,
    389296116,
    410971550,
    436316113,
    466189019,
    501750748,
    544606290,
    597038905,
    662408907,
    745871515,
    855757353,
    1006459003,
    1225166301,
    1570147931,
    2192908875,
    3648977753,
    10938142553,
];

fn table_of(width: usize) -> &'static [i64]
    ensures { result.now ≡ map pos (secants width) }
{
    match width {
        8 => &SECANTS_8,
        32 => &SECANTS_32,
        128 => &SECANTS_128,
        _ => &[],
    }
}

// The secants of a width at r = 1, 3, 5, .., one to each place of out: that of the angle in the first quadrant, with the sign of the cosine.
pub fn secants(width: usize, out: &mut [i64])
    requires { (0 < half_width width) × (length out.old ≤ 128) }
    ensures { out.new ≡ places (length out.old) (λ k. secant_of width (pos (2 * k + 1))) }
{
    let table = table_of(width);
    let quarter = (width / 2) as u16;
    for (k, o) in out.iter_mut().enumerate() {
        let r = (2 * k + 1) as u16;
        let folded = angles::first_quadrant(r, quarter);
        let at = usize::from(folded.angle / 2);
        *o = angles::signed(folded.minus, table[at]);
    }
}
