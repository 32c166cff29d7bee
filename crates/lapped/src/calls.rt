// A run block by block, for C. The record's numbers are the caller's; a refused call leaves them as they were.
ghost use Rattle.std.specs.Prelude.{◌≡◌, cond, [], ◌≤◌, nat_abs, ◌+ℤ◌, length};
ghost use Rattle.integers.specs.Vectors.{sum_of};
ghost use Rattle.runs.specs.Answers.{told};
ghost use Rattle.runs.specs.Record.{record_of, next_count, next_total};
ghost use Rattle.runs.specs.Forward.{taken};
ghost use Rattle.runs.specs.Back.{taken_back};
ghost use Rattle.runs.specs.Totals.{total_limit};
ghost use Rattle.c_record.specs.Calls.{lapped_start, lapped_take, lapped_finish, lapped_back_take, lapped_back_finish};
ghost use Rattle.c_record.specs.Ready.{readings_of};

use c_record::record::Head;
use c_record::{answer, record};
use calls_back::back;
use calls_forward::{forward, in_place};
use gate::questions;
use runs::answer::{Answer, Refusal};

// A fresh run of a width, either way.
#[unsafe(no_mangle)]
pub extern "C" fn lapped_start(width: usize, run: &mut [i64], place: &mut usize) -> u32
    ensures { ((result, place.new), run.new) ≡ lapped_start width run.old }
{
    let fresh = forward::start(width);
    let answer = fresh.answer;
    if run.len() == 68 {
        record::pack(fresh.run, run);
        return answer::tell(answer, place);
    }
    if answer.is_ok() {
        return answer::tell(Err(Refusal::Record), place);
    }
    answer::tell(answer, place)
}

// One code for both ways. The held values stay where they lie in the record.
fn take_held(back: bool, head: Head, held: &mut [i64], given: &[i32], out: &mut [i32]) -> Answer
    requires { length held.old ≡ 64 }
    ensures { (told result, record_of head.width (next_count (told result).0 head.count) held.new head.finished (next_total (told result).0 head.total (readings_of back head.count given.now out.new)), out.new) ≡ cond back taken_back taken (record_of head.width head.count held.old head.finished head.total) given.now out.old }
{
    let width = head.width;
    let count = head.count;
    let finished = head.finished;
    let total = head.total;
    if back {
        return calls_back::in_place::take(width, count, finished, total, held, given, out);
    }
    in_place::take(width, count, finished, total, held, given, out)
}

// The total after it: forward of the readings given, back of those that came out.
fn total_after(back: bool, head: Head, answer: Answer, given: &[i32], out: &[i32]) -> i64
    requires { (told answer).0 ≡ 0 → (length given.now ≤ 128) × (length out.now ≤ 128) × (nat_abs (head.total +ℤ sum_of (readings_of back head.count given.now out.now)) ≤ total_limit) }
    ensures { result ≡ next_total (told answer).0 head.total (readings_of back head.count given.now out.now) }
{
    let total = head.total;
    if back {
        return calls_back::in_place::total_after(total, head.count, answer, out);
    }
    questions::next_total(total, answer, given)
}

fn take_either_way(
    back: bool,
    run: &mut [i64],
    given: &[i32],
    out: &mut [i32],
    place: &mut usize,
) -> u32
    ensures { ((result, place.new), run.new, out.new) ≡ cond back lapped_back_take lapped_take run.old given.now out.old }
{
    if !record::is_record(run) {
        return answer::tell(Err(Refusal::Record), place);
    }
    let head = record::front(run);
    let answer = take_held(back, head, &mut run[3..67], given, out);
    let total = total_after(back, head, answer, given, out);
    record::store(head.count, total, answer, run);
    answer::tell(answer, place)
}

// Take a block: its readings in, its frame out.
#[unsafe(no_mangle)]
pub extern "C" fn lapped_take(
    run: &mut [i64],
    block: &[i32],
    frame: &mut [i32],
    place: &mut usize,
) -> u32
    ensures { ((result, place.new), run.new, frame.new) ≡ lapped_take run.old block.now frame.old }
{
    take_either_way(false, run, block, frame, place)
}

// Finish: the frame of the last block's held half.
#[unsafe(no_mangle)]
pub extern "C" fn lapped_finish(run: &mut [i64], frame: &mut [i32], place: &mut usize) -> u32
    ensures { ((result, place.new), run.new, frame.new) ≡ lapped_finish run.old frame.old }
{
    let outcome = forward::finish(record::unpack(run), frame);
    answer::hand_back(outcome, run, place)
}

// Take a frame back: its coefficients in, the block before it out. The first frame writes nothing.
#[unsafe(no_mangle)]
pub extern "C" fn lapped_back_take(
    run: &mut [i64],
    frame: &[i32],
    block: &mut [i32],
    place: &mut usize,
) -> u32
    ensures { ((result, place.new), run.new, block.new) ≡ lapped_back_take run.old frame.now block.old }
{
    take_either_way(true, run, frame, block, place)
}

// Finish back: the run is closed.
#[unsafe(no_mangle)]
pub extern "C" fn lapped_back_finish(run: &mut [i64], place: &mut usize) -> u32
    ensures { ((result, place.new), run.new, []) ≡ lapped_back_finish run.old }
{
    let outcome = back::finish(record::unpack(run));
    answer::hand_back(outcome, run, place)
}
