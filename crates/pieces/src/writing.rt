// Writes what is printed.
ghost use Rattle.std.specs.Prelude.{◌≤◌, length, OnOk};
ghost use Rattle.std.specs.Io.KnownBytes.{Appends};

use crate::reading::Lost;
use decimal::search;
use std::io;
use std::io::{ErrorKind, Write};

// An output, and where it is told that a write to it has failed.
#[derive(Drop)]
pub struct Target<W, E> {
    pub output: W,
    pub errors: E,
}

// Why a text was not written to its end: a write took nothing or failed, or nobody reads any more.
#[derive(Clone, Copy)]
enum Stop {
    Cut,
    Unread,
}

fn stopped_by(why: &io::Error) -> Stop {
    if why.kind() == ErrorKind::BrokenPipe {
        return Stop::Unread;
    }
    Stop::Cut
}

fn write_all<W: Write>(output: &mut W, text: &[u8]) -> Result<(), Stop>
    ensures { OnOk result (Appends (W.contents output.old) (W.contents output.new) text.now) }
{
    let mut done = 0;
    while done < text.len() {
        match output.write(&text[done..]) {
            Ok(n) if 0 < n => done += n,
            Ok(_) => return Err(Stop::Cut),
            Err(why) => return Err(stopped_by(&why)),
        }
    }
    Ok(())
}

// Writes a text, or stops at the first write that takes nothing or fails, and answers whether all of it is written.
pub fn put<W: Write>(output: &mut W, text: &[u8]) -> bool {
    write_all(output, text).is_ok()
}

// A program has no exit status, so it says on standard error that its output is not whole.
pub fn write<W: Write, E: Write>(output: &mut Target<W, E>, text: &[u8]) -> Result<(), Lost>
    ensures { OnOk result (Appends (W.contents output.old.output) (W.contents output.new.output) text.now) }
{
    match write_all(&mut output.output, text) {
        Ok(()) => return Ok(()),
        Err(Stop::Cut) => put(&mut output.errors, b"the output cannot be written\n"),
        Err(Stop::Unread) => put(
            &mut output.errors,
            b"the output cannot be written: Broken pipe\n",
        ),
    };
    Err(Lost)
}

// Where the words of the system end: behind them stands its number, ` (os error 21)`.
fn words_end(text: &[u8]) -> usize
    ensures { result ≤ length text.now }
{
    let number = search::end_of(text, 0, b'(');
    if number == text.len() {
        return number;
    }
    number.saturating_sub(1)
}

// Puts the system's words at the start of a text.
fn reason(why: &io::Error, text: &mut [u8; 256]) -> usize
    ensures { result ≤ 256 }
{
    let mut rest = &mut text[..];
    let _ = write!(rest, "{why}");
    let left = rest.len();
    let told = text.len().saturating_sub(left);
    words_end(&text[..told])
}

// Writes a line to standard error: what failed, as the caller names it, a colon and the system's words.
pub fn fail<E: Write>(errors: &mut E, what: &[u8], why: &io::Error) {
    let mut text = [0u8; 256];
    let n = reason(why, &mut text);
    put(errors, what);
    put(errors, b": ");
    put(errors, &text[..n]);
    put(errors, b"\n");
}
