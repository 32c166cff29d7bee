// The input, piece by piece.
ghost use Rattle.std.specs.Prelude.{◌≡◌, true, false, ◌⊎◌, ◌≤◌, ◌<◌, length, Ok, IfOk, IsOk, OnErr, IsErr};
ghost use Rattle.std.specs.Io.{ReadsAtMost};
ghost use Rattle.std.specs.Io.KnownBytes.{Keeps, ReadConsumes};
ghost use Rattle.pieces.specs.Own.Refills.{piece_given, Refills};

use crate::writing;
use std::io;
use std::io::{ErrorKind, Read, Write};

// How often a read that a signal interrupted is tried again. A proved loop must end, and signals might never stop coming.
const MOST_TRIES: usize = 1000;

// A piece in the first `count` bytes of a buffer, and where to go on in it. With no byte in it the input has ended.
#[derive(Clone, Copy)]
pub struct PieceRead {
    pub count: usize,
    pub at: usize,
}

// A read or a write has failed, and standard error says so.
#[derive(Clone, Copy)]
pub struct Lost;

// An input, and where it is told that a read of it has failed.
#[derive(Drop)]
pub struct Source<R, E> {
    pub input: R,
    pub errors: E,
}

// Room for a piece.
pub fn large_buffer() -> [u8; 65536]
    ensures { 65536 ≡ length result }
{
    [0; 65536]
}

fn interrupted(got: &io::Result<usize>) -> bool
    ensures { IfOk got.now (λ _. result ≡ false) }
{
    match got {
        Ok(_) => false,
        Err(why) => why.kind() == ErrorKind::Interrupted,
    }
}

fn read<R: Read>(input: &mut R, buffer: &mut [u8]) -> io::Result<usize>
    ensures bound { ReadsAtMost result buffer.new }
    ensures bytes { ReadConsumes (R.remaining input.old) (R.remaining input.new) result buffer.new }
{
    let mut got = input.read(buffer);
    for _ in 0..MOST_TRIES {
        if !interrupted(&got) {
            return got;
        }
        got = input.read(buffer);
    }
    got
}

// Reads until the buffer is full, the input ends or a read fails, and answers how many bytes stand at its start then.
pub fn read_full<R: Read>(input: &mut R, buffer: &mut [u8]) -> usize
    ensures { result ≤ length buffer.new }
{
    let mut done = 0;
    while done < buffer.len() {
        match input.read(&mut buffer[done..]) {
            Ok(n) if 0 < n => done += n,
            _ => return done,
        }
    }
    done
}

// The piece that a read gave, from its first byte. One that failed is no end of the input.
fn piece_of(got: &io::Result<usize>) -> Result<PieceRead, Lost>
    ensures ok { IfOk got.now (λ n. result ≡ Ok (piece_given n)) }
    ensures err { OnErr got.now (IsErr result) }
{
    match got {
        Ok(count) => {
            let count = *count;
            Ok(PieceRead { count, at: 0 })
        }
        Err(_) => Err(Lost),
    }
}

// Goes on in a piece, or reads the next one where it is used up. A read that fails takes nothing from the input; it is told on standard error,
// with its reason.
pub fn refill<R: Read, E: Write>(
    input: &mut Source<R, E>,
    buffer: &mut [u8],
    count: usize,
    at: usize,
) -> Result<PieceRead, Lost>
    requires { (at ≤ count) × (count ≤ length buffer.old) }
    ensures ok { IfOk result (λ r. Refills (R.remaining input.old.input) (R.remaining input.new.input) buffer.old count at r buffer.new) }
    ensures goes_on { at < count → IsOk result }
    ensures failed { OnErr result (Keeps (R.remaining input.old.input) (R.remaining input.new.input)) }
{
    if at < count {
        return Ok(PieceRead { count, at });
    }
    let got = read(&mut input.input, buffer);
    let piece = piece_of(&got);
    if let Err(why) = got {
        writing::fail(&mut input.errors, b"the input cannot be read", &why);
    }
    piece
}

// Whether a program reads no further: there was no byte, or it is over.
pub fn stops(count: usize, over: bool) -> bool
    ensures stops { result ≡ true → (count ≡ 0) ⊎ (over ≡ true) }
    ensures goes_on { result ≡ false → (0 < count) × (over ≡ false) }
{
    count == 0 || over
}
