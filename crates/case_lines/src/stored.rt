// A file of cases.
ghost use Rattle.std.specs.Prelude.{◌≡◌, ◌≤◌, length};

use pieces::reading;
use std::fs::File;
use std::rt::Files;

// Room for a file. The `ensures` gives the length, which lending it needs.
pub fn text_room() -> [u8; 131072]
    ensures { 131072 ≡ length result }
{
    [0; 131072]
}

// Puts the bytes of a file at the start of a buffer. A file that cannot be read has none.
pub fn read<R: Files>(rt: &R, name: &str, buffer: &mut [u8]) -> usize
    ensures { result ≤ length buffer.new }
{
    match File::open(rt, name) {
        Ok(mut opened) => reading::read_full(&mut opened, buffer),
        Err(_) => 0,
    }
}
