// The widths of a run.
ghost use Rattle.std.specs.Prelude.{◌≡◌, pos};
ghost use Rattle.tables.specs.Widths.{half_width};

// M, and 0 where there is no such width.
#[tactic(auto, unfolding(tables::specs::Widths::by_width, tables::specs::Widths::half_width))]
pub fn half_width(width: usize) -> usize
    ensures { result ≡ half_width width }
{
    match width {
        8 => 4,
        32 => 16,
        128 => 64,
        _ => 0,
    }
}

// 8/√M, by which the sums of all widths come to one scale; 0 where there is no such width.
#[tactic(auto, unfolding(tables::specs::Widths::by_width, tables::specs::Widths::scale))]
pub fn scale(width: usize) -> i64
    ensures { result ≡ pos (Rattle.tables.specs.Widths.scale width) }
{
    match width {
        8 => 4,
        32 => 2,
        128 => 1,
        _ => 0,
    }
}
