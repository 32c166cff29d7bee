// The cases of data/: calls of the library, each with what it must give. In the files forward, back and stages a line is a case: its name, a colon,
// and numbers with commas between them, where 0*64 stands for 64 zeros. The numbers are
//     total before, total after, kind, times, answer, place, length of the input, record before, record after, input, output
// and a record is its width, its count, 1 if it is finished and else 0, and 64 held values; its total has 64 bits, and stands in front. Every place of
// an output is 7 before the call. The kinds are numbered in `call`. The lines of records.txt and calls.txt are told in `sound` and `series`.
#![tactic(auto)]

mod call;
mod case;
mod series;
mod sound;

ghost use Rattle.std.specs.Prelude.{◌≡◌, length};

use calls_forward::forward;
use case::Totals;
use case_lines::{line, report, stored};
use runs::record::Run;
use series::Given;
use std::rt::Files;

// What the lines of a file are.
#[derive(Clone, Copy, PartialEq, Eq)]
enum Table {
    Cases,
    Records,
    Calls,
}

// Room for the numbers of a line, which are 65,538 frames of 8 and 147 more in the longest.
fn number_room() -> [i32; 525000]
    ensures { 525000 ≡ length result }
{
    [0; 525000]
}

// A case without its name. A line that is no case does not agree.
fn case_agrees(text: &[u8]) -> bool {
    let (Some(before), Some(after)) = (line::whole(text, 0, b','), line::whole(text, 1, b','))
    else {
        return false;
    };
    let totals = Totals { before, after };
    let mut numbers = number_room();
    let n = line::numbers(text, line::begin(text, 2, b','), &mut numbers);
    case::agrees(&numbers[0..n], totals)
}

// Only the calls of calls.txt go on with a record.
fn tried(table: Table, run: Run, text: &[u8]) -> Given {
    match table {
        Table::Cases => {
            let from = line::begin(text, 1, b':');
            Given {
                run: run,
                same: case_agrees(&text[from..]),
            }
        }
        Table::Records => Given {
            run: run,
            same: sound::agrees(text),
        },
        Table::Calls => series::next(run, text),
    }
}

// A file that cannot be read has no case.
fn file<R: Files + Print>(rt: &R, table: Table, name: &str) {
    let _ = print!(rt; "{name}");
    let mut buffer = stored::text_room();
    let n = stored::read(rt, name, &mut buffer);
    let mut run = forward::start(0).run;
    let counts = report::each(rt, &buffer[..n], |text| {
        let given = tried(table, run, text);
        run = given.run;
        given.same
    });
    report::total(rt, counts);
}

fn main(rt: HostRuntime) {
    file(&rt, Table::Cases, "forward");
    file(&rt, Table::Cases, "back");
    file(&rt, Table::Cases, "stages");
    file(&rt, Table::Records, "records.txt");
    file(&rt, Table::Calls, "calls.txt");
}
