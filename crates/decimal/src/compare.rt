// Whether two lines are the same.
ghost use Rattle.std.specs.Prelude.{◌≡◌};
ghost use Rattle.text_runs.specs.Lines;

pub fn same(x: &[u8], y: &[u8]) -> bool
    ensures { result ≡ Lines.same x.now y.now }
{
    x == y
}
