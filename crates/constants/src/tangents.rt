// Half tangents tan((2m+1)π/(8N)), times 2^28.
ghost use Rattle.std.specs.Prelude.{◌≡◌, map, ◌<◌, pos, neg_ℤ, length};
ghost use Rattle.integers.specs.Places.{places};
ghost use Rattle.tables.specs.Widths.{half_width};
ghost use Rattle.tables.specs.Numbers.{half_tangents, half_tangent_of};

static HALF_TANGENTS_8: [i64; 4] = [13187388, 39818638, 67239581, 96047742];

static HALF_TANGENTS_32: [i64; 16] = [
    3294364, 9887063, 16491695, 23116279, 29768931, 36457905, 43191631, 49978763, 56828222,
    63749246, 70751442, 77844840, 85039957, 92347864, 99780257, 107349540,
];

static HALF_TANGENTS_128: [i64; 64] = [
    823552, 2470719, 4118071, 5765734, 7413831, 9062487, 10711826, 12361973, 14013053, 15665190,
    17318512, 18973143, 20629210, 22286839, 23946158, 25607295, 27270377, 28935534, 30602896,
    32272592, 33944753, 35619511, 37296998, 38977348, 40660695, 42347174, 44036921, 45730074,
    47426770, 49127148, 50831350, 52539517, 54251792, 55968319, 57689243, 59414712, 61144875,
    62879880, 64619880, 66365028, 68115479, 69871390, 71632918, 73400225, 75173471, 76952823,
    78738445, 80530507, 82329178, 84134632, 85947044, 87766591, 89593453, 91427814, 93269858,
    95119773, 96977750, 98843983, 100718668, 102602005, 104494197, 106395450, 108305973, 110225980,
];

fn table_of(width: usize) -> &'static [i64]
    ensures { result.now ≡ map pos (half_tangents width) }
{
    match width {
        8 => &HALF_TANGENTS_8,
        32 => &HALF_TANGENTS_32,
        128 => &HALF_TANGENTS_128,
        _ => &[],
    }
}

// −t(m), as the lifts take it.
pub fn half_tangents(width: usize, out: &mut [i64])
    requires { (0 < half_width width) × (length out.old ≡ half_width width) }
    ensures { out.new ≡ places (half_width width) (λ m. neg_ℤ (half_tangent_of width m)) }
{
    let table = table_of(width);
    for (m, o) in out.iter_mut().enumerate() {
        *o = -table[m];
    }
}
