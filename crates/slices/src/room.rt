// Room to work in: arrays of zeros, of which a caller needs to know the length alone.
ghost use Rattle.std.specs.Prelude.{◌≡◌, length};

pub fn zeros<const N: usize>() -> [i64; N]
    ensures { N ≡ length result }
{
    [0; N]
}
