// The sample runs as text: each run's name, and then all that is printed for it; the same in pieces of other lengths; and a long run both ways.
#![tactic(auto)]

mod files;
mod long;
mod samples;

use files::Tried;
use std::io;

fn main(rt: HostRuntime) -> io::Result<()> {
    let mut one = files::temporary(&rt)?;
    let mut other = files::temporary(&rt)?;
    samples::show_listed(&rt, Tried::Forward, b"forward_runs", &mut one, &mut other);
    samples::show_listed(&rt, Tried::Back, b"back_runs", &mut one, &mut other);
    samples::show_listed(&rt, Tried::Squares, b"squares_runs", &mut one, &mut other);
    long::show(&rt, &mut one, &mut other, 65536)?;
    long::show(&rt, &mut one, &mut other, 7)
}
