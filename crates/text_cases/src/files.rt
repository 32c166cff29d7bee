// Files that a run is written to, and read from again.
ghost use Rattle.std.specs.Prelude.{◌≤◌};

use pieces::reading::Source;
use pieces::writing::Target;
use pieces::{reading, writing};
use std::fs::File;
use std::io::{ErrorKind, Read, Seek, Write};
use std::{fs, io, str};
use text_runs::state::Way;

// What a temporary file is called until it is open.
const TEMPORARY: &str = "lapped.temporary";

// A file of its own in the folder that the program runs in, which is gone with the program.
pub fn temporary(rt: &HostRuntime) -> io::Result<File> {
    let made = File::create_new(rt, TEMPORARY)?;
    let _ = fs::remove_file(rt, TEMPORARY);
    Ok(made)
}

fn opened(rt: &HostRuntime, name: &[u8]) -> io::Result<File> {
    match str::from_utf8(name) {
        Ok(path) => File::open(rt, path),
        Err(_) => Err(io::Error::from(ErrorKind::InvalidInput)),
    }
}

// A file to be read, or none, which is told on standard error.
pub fn open(rt: &HostRuntime, name: &[u8]) -> Option<File> {
    match opened(rt, name) {
        Ok(file) => Some(file),
        Err(why) => {
            writing::fail(&mut rt.stderr(), name, &why);
            None
        }
    }
}

pub fn rewind(file: &mut File) {
    let _ = file.rewind();
}

pub fn empty(file: &mut File) {
    let _ = file.set_len(0);
    rewind(file);
}

// The programs that are tried.
#[derive(Clone, Copy, PartialEq, Eq)]
pub enum Tried {
    Forward,
    Back,
    Squares,
}

fn pass_run<R: Read, W: Write, E: Write>(
    way: Way,
    input: &mut Source<R, E>,
    output: &mut Target<W, E>,
    length: usize,
)
    requires { length ≤ 65536 }
{
    let mut buffer = reading::large_buffer();
    stream::run::run(way, input, output, &mut buffer[..length]);
}

fn pass_reel<R: Read, W: Write, E: Write>(
    input: &mut Source<R, E>,
    output: &mut Target<W, E>,
    length: usize,
)
    requires { length ≤ 65536 }
{
    let mut buffer = reading::large_buffer();
    reel_stream::run::run(input, output, &mut buffer[..length]);
}

// A run from one file to another, in pieces of such a length.
pub fn pass<R: Read, W: Write>(
    rt: &HostRuntime,
    tried: Tried,
    input: &mut R,
    output: &mut W,
    length: usize,
)
    requires { length ≤ 65536 }
{
    let mut source = Source {
        input: input,
        errors: rt.stderr(),
    };
    let mut target = Target {
        output: output,
        errors: rt.stderr(),
    };
    match tried {
        Tried::Forward => pass_run(Way::Forward, &mut source, &mut target, length),
        Tried::Back => pass_run(Way::Back, &mut source, &mut target, length),
        Tried::Squares => pass_reel(&mut source, &mut target, length),
    }
}

// Whether two files have the same bytes, up to 16 MB.
pub fn same(one: &mut File, other: &mut File) -> bool {
    rewind(one);
    rewind(other);
    let mut x = [0u8; 4096];
    let mut y = [0u8; 4096];
    for _ in 0..4096 {
        let n = reading::read_full(one, &mut x);
        let m = reading::read_full(other, &mut y);
        if x[..n] != y[..m] {
            return false;
        }
        if n == 0 {
            return true;
        }
    }
    false
}

pub fn say<W: Write>(output: &mut W, same: bool, what: &[u8]) {
    if same {
        writing::put(output, b"the same ");
    } else {
        writing::put(output, b"NOT the same ");
    }
    writing::put(output, what);
}
