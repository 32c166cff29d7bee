// One case.
ghost use Rattle.std.specs.Prelude.{◌≡◌, ◌≤◌, length};

use crate::call;
use crate::call::Call;
use case_lines::line;
use runs::answer::Answer;
use runs::record::{Outcome, Run};
use runs::{answer, record};
use slices::vectors;

// The totals of the record before the call and of the one after it.
#[derive(Clone, Copy)]
pub struct Totals {
    pub before: i64,
    pub after: i64,
}

fn held_in(x: &[i32]) -> [i64; 64]
    requires { length x.now ≡ 64 }
{
    let mut held = record::nothing_held();
    vectors::widen(x, &mut held);
    held
}

fn record_in(x: &[i32], total: i64) -> Run
    requires { length x.now ≡ 67 }
{
    let held = held_in(&x[3..]);
    let finished = line::at(x, 2) == 1;
    record::make(line::at(x, 0), line::at(x, 1), held, finished, total)
}

fn same_answer(answer: Answer, x: &[i32]) -> bool {
    (answer::number(answer) == line::at(x, 2)) && (answer::place(answer) == line::at(x, 3))
}

fn as_told(given: Outcome, x: &[i32], after: i64) -> bool
    requires { 139 ≤ length x.now }
{
    let answer = given.answer;
    let run = given.run;
    same_answer(answer, x) && run == record_in(&x[72..139], after)
}

fn outcome(x: &[i32], before: i64, end: usize, output: &mut [i32]) -> Option<Outcome>
    requires { (139 ≤ end) × (end ≤ length x.now) }
{
    let call = Call::try_from(line::at(x, 0)).ok()?;
    let run = record_in(&x[5..72], before);
    call::repeated(call, line::at(x, 1), run, &x[139..end], output)
}

// Room for an output, with 7 in every place.
pub fn marked() -> [i32; 1024]
    ensures { 1024 ≡ length result }
{
    [7; 1024]
}

fn tried(x: &[i32], totals: Totals, end: usize, told: &[i32]) -> bool
    requires le_end { (139 ≤ end) × (end ≤ length x.now) }
    requires told_len_bound { length told.now ≤ 1024 }
{
    let m = told.len();
    let mut output = marked();
    match outcome(x, totals.before, end, &mut output[0..m]) {
        Some(given) => as_told(given, x, totals.after) && &output[0..m] == told,
        None => false,
    }
}

pub fn agrees(x: &[i32], totals: Totals) -> bool {
    if x.len() < 139 {
        return false;
    }
    let n = line::at(x, 4);
    let rest = x.len() - 139;
    if rest < n {
        return false;
    }
    if 1024 < rest - n {
        return false;
    }
    let end = 139 + n;
    tried(x, totals, end, &x[end..])
}
