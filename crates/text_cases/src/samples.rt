// Runs that a list names.
ghost use Rattle.std.specs.Prelude.{◌≤◌};

use crate::files;
use crate::files::Tried;
use decimal::search;
use pieces::{reading, writing};
use std::fs::File;
use std::io::Write;

// The lengths of the pieces, besides 65,536.
const PIECES: [usize; 5] = [1, 7, 2047, 2048, 2049];

fn run_from<W: Write>(rt: &HostRuntime, tried: Tried, name: &[u8], output: &mut W, length: usize)
    requires { length ≤ 65536 }
{
    let Some(mut opened) = files::open(rt, name) else {
        return;
    };
    files::pass(rt, tried, &mut opened, output, length);
}

// Whether the run prints the same in pieces of each length.
fn agrees(rt: &HostRuntime, tried: Tried, name: &[u8], one: &mut File, other: &mut File) -> bool {
    files::empty(one);
    run_from(rt, tried, name, one, 65536);
    for length in PIECES {
        files::empty(other);
        run_from(rt, tried, name, other, length);
        if !files::same(one, other) {
            return false;
        }
    }
    true
}

fn show(rt: &HostRuntime, tried: Tried, name: &[u8], one: &mut File, other: &mut File) {
    let mut output = rt.stdout();
    writing::put(&mut output, name);
    writing::put(&mut output, b"\n");
    run_from(rt, tried, name, &mut output, 65536);
    files::say(
        &mut output,
        agrees(rt, tried, name, one, other),
        b"in pieces of 1, 7, 2047, 2048 and 2049 bytes\n",
    );
}

// One on a line.
fn show_each(rt: &HostRuntime, tried: Tried, list: &[u8], one: &mut File, other: &mut File) {
    let mut at = 0;
    while at < list.len() {
        let end = search::end_of(list, at, b'\n');
        show(rt, tried, &list[at..end], one, other);
        at = end + 1;
    }
}

pub fn show_listed(rt: &HostRuntime, tried: Tried, name: &[u8], one: &mut File, other: &mut File) {
    let Some(mut opened) = files::open(rt, name) else {
        return;
    };
    let mut buffer = [0u8; 4096];
    let n = reading::read_full(&mut opened, &mut buffer);
    show_each(rt, tried, &buffer[..n], one, other);
}
