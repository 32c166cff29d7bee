// A run of more than 300 KB, forward and back.
ghost use Rattle.std.specs.Prelude.{◌≤◌};

use crate::files;
use crate::files::Tried;
use decimal::print;
use pieces::writing;
use std::fs::File;
use std::io;
use std::io::Write;

const BLOCKS: usize = 12000;

// A reading of block i, from 0 to 999.
fn reading(i: usize, j: usize) -> i32
    requires { (i ≤ 12000) × (j ≤ 8) }
{
    let n = (i * 37 + j * 113) % 1000;
    n as i32
}

fn write_block<W: Write>(file: &mut W, i: usize)
    requires { i ≤ 12000 }
{
    let mut block = [0i32; 8];
    for (j, x) in block.iter_mut().enumerate() {
        *x = reading(i, j);
    }
    let mut text = [0u8; 128];
    let n = print::numbers(&mut text, 0, &block);
    let m = print::bytes(&mut text, n, b"\n");
    writing::put(file, &text[..m]);
}

// The total is 96 times the sum of 0 to 999: at each place every number comes twelve times.
fn write_run<W: Write>(file: &mut W) {
    writing::put(file, b"8\n");
    for i in 0..BLOCKS {
        write_block(file, i);
    }
    writing::put(file, b"end,12000,47952000\n");
}

// The run forward into one file and back into another gives its own bytes again.
pub fn show(rt: &HostRuntime, one: &mut File, other: &mut File, length: usize) -> io::Result<()>
    requires { length ≤ 65536 }
{
    let mut readings = files::temporary(rt)?;
    write_run(&mut readings);
    files::rewind(&mut readings);
    files::empty(one);
    files::pass(rt, Tried::Forward, &mut readings, one, length);
    files::rewind(one);
    files::empty(other);
    files::pass(rt, Tried::Back, one, other, length);
    files::say(
        &mut rt.stdout(),
        files::same(&mut readings, other),
        b"after 12000 blocks forward and back\n",
    );
    Ok(())
}
