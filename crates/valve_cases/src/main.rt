// The cases of the valve, read from data/valve.txt. Its lines are told in `valve`.
#![tactic(auto)]

mod valve;

use case_lines::{report, stored};

// A file that cannot be read has no case.
fn main(rt: HostRuntime) {
    let name = "valve.txt";
    let _ = print!(rt; "{name}");
    let mut buffer = stored::text_room();
    let n = stored::read(&rt, name, &mut buffer);
    let counts = report::each(&rt, &buffer[..n], valve::agrees);
    report::total(&rt, counts);
}
