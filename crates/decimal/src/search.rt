// Where a byte ends a part of a text.
ghost use Rattle.std.specs.Prelude.{◌≡◌, ◌+◌, ◌≤◌, length, drop};
ghost use Rattle.text_runs.specs.Lines.{up_to};

// The place of the first such byte from a place on, or the text's end.
pub fn end_of(text: &[u8], from: usize, byte: u8) -> usize
    requires { from ≤ length text.now }
    ensures { result ≡ from + length (up_to byte (drop from text.now)) }
{
    match text[from..].iter().position(|b| *b == byte) {
        Some(n) => from + n,
        None => text.len(),
    }
}
