// The paper's sample, by three calls of the library: README.md quotes `sample`.
#![tactic(auto)]

ghost use Rattle.std.specs.Prelude.{◌≡◌, length};

use calls_forward::forward;
use decimal::print;
use runs::record::Outcome;
use std::io::Write;

// One block of width 8, and the finish. Each call has an output of its own.
fn sample(one: &mut [i32], two: &mut [i32]) -> Outcome {
    let fresh = forward::start(8);
    let first = forward::take(fresh.run, &[100, 0, 0, 0, 0, 0, 0, 0], one);
    // one is 39,-24,-48,4,50,14,-44,-33
    let last = forward::finish(first.run, two);
    // two is -3,4,2,-5,0,5,-3,-3
    // last.run.total is 100
    last
}

// A frame as one line: its numbers, parted by commas.
fn show<W: Write>(output: &mut W, frame: &[i32])
    requires { length frame.now ≡ 8 }
{
    let mut line = [0u8; 96];
    let n = print::numbers(&mut line, 0, frame);
    let _ = output.write_all(&line[0..n]);
    let _ = output.write_all(b"\n");
}

// The end line of the two frames.
fn show_end<W: Write>(output: &mut W, total: i64) {
    let mut line = [0u8; 96];
    let n = print::end_line(&mut line, 0, 2, total);
    let _ = output.write_all(&line[0..n]);
    let _ = output.write_all(b"\n");
}

fn main(rt: HostRuntime) {
    let mut output = rt.stdout();
    let mut one = [0; 8];
    let mut two = [0; 8];
    let last = sample(&mut one, &mut two);
    if last.answer.is_ok() {
        show(&mut output, &one);
        show(&mut output, &two);
        show_end(&mut output, last.run.total);
    }
}
