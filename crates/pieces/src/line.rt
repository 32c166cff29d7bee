// A line of an input that comes in pieces.
ghost use Rattle.std.specs.Prelude.{◌≡◌, ◌≤◌, length};
ghost use Rattle.pieces.specs.Own.Gathers.{Gathers};

// Whether a line has ended: not yet, by a line feed, or broken at a byte that it has no room for.
#[derive(Clone, Copy)]
pub enum LineEnd {
    Open,
    Whole,
    Broken,
}

// How many bytes a line has now, where the rest of the piece begins, and whether the line has ended.
#[derive(Clone, Copy)]
pub struct Gathered {
    pub length: usize,
    pub next: usize,
    pub end: LineEnd,
}

// The piece from a place on, put behind the bytes that a line had from the pieces before.
pub fn gather(piece: &[u8], from: usize, line: &mut [u8], had: usize) -> Gathered
    requires { (from ≤ length piece.now) × (length line.old ≡ 2048) × (had ≤ 2048) }
    ensures { Gathers piece.now from line.old had result line.new }
{
    let mut length = had;
    for at in from..piece.len() {
        let b = piece[at];
        let next = at + 1;
        if b == b'\n' {
            return Gathered {
                length,
                next,
                end: LineEnd::Whole,
            };
        }
        if length == line.len() {
            return Gathered {
                length,
                next,
                end: LineEnd::Broken,
            };
        }
        line[length] = b;
        length += 1;
    }
    Gathered {
        length,
        next: piece.len(),
        end: LineEnd::Open,
    }
}
