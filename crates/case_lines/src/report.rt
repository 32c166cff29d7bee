// What is printed of the lines of a file.
ghost use Rattle.std.specs.Prelude.{◌≤◌, length};

use crate::line;

// How many lines of a text are cases, and how many of these differ.
#[derive(Clone, Copy)]
pub struct Counts {
    pub cases: usize,
    pub differ: usize,
}

fn count<P: Print>(rt: &P, text: &str, n: usize) {
    let _ = print!(rt; "{text}{n}");
}

// 1 for a line that differs, whose number is printed, and 0 for one that does not.
fn differs<P: Print>(rt: &P, number: usize, same: bool) -> usize
    ensures { result ≤ 1 }
{
    if same {
        return 0;
    }
    count(rt, "\nline ", number);
    1
}

// Each line of a text that is no remark is a case, which agrees or differs.
pub fn each<P: Print, F: FnMut(&[u8]) -> bool>(rt: &P, text: &[u8], mut agrees: F) -> Counts
    requires { F.IsAlwaysCallable agrees }
    ensures { (result.differ ≤ result.cases) × (result.cases ≤ length text.now) }
{
    let mut lines: usize = 0;
    let mut cases: usize = 0;
    let mut differ: usize = 0;
    let mut at = 0;
    while at < text.len() {
        let end = line::end(text, at, b'\n');
        let line = &text[at..end];
        lines += 1;
        if !line::is(line, 0, b' ', b"#") {
            cases += 1;
            differ += differs(rt, lines, agrees(line));
        }
        at = end + 1;
    }
    Counts { cases, differ }
}

pub fn total<P: Print>(rt: &P, counts: Counts) {
    count(rt, "\ncases ", counts.cases);
    count(rt, ", differ ", counts.differ);
    let _ = println!(rt; "");
}
