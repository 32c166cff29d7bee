// The run record as 68 numbers: the width, the count, whether it is finished, the held values, and the total.
ghost use Rattle.std.specs.Prelude.{◌≡◌, true, ◌<◌, pos, length, take, drop, set};
ghost use Rattle.integers.specs.Places.{at};
ghost use Rattle.runs.specs.Answers.{told};
ghost use Rattle.runs.specs.Record.{frame_limit, record_of, next_count};
ghost use Rattle.c_record.specs.Record.{is_record, packed, unpacked};
ghost use Rattle.c_record.specs.Ready.{Packable};

use runs::answer::Answer;
use runs::record;
use runs::record::Run;
use slices::vectors;

#[derive(Clone, Copy)]
pub struct Head {
    pub width: usize,
    pub count: usize,
    pub finished: bool,
    pub total: i64,
}

// One test at a time: in a chain with && each test is a joint of the proof, which did not close.
pub fn is_record(numbers: &[i64]) -> bool
    ensures { result ≡ is_record numbers.now }
{
    if numbers.len() != 68 {
        return false;
    }
    if numbers[0] < 0 {
        return false;
    }
    if numbers[1] < 0 {
        return false;
    }
    if numbers[2] < 0 {
        return false;
    }
    numbers[2] < 2
}

// The numbers beside the held values.
pub fn front(numbers: &[i64]) -> Head
    requires { is_record numbers.now ≡ true }
    ensures total_value { record_of result.width result.count (take 64 (drop 3 numbers.now)) result.finished result.total ≡ unpacked numbers.now }
    ensures numbers_value { (at numbers.now 1 ≡ pos result.count) × (at numbers.now 67 ≡ result.total) }
{
    Head {
        width: numbers[0] as usize,
        count: numbers[1] as usize,
        finished: numbers[2] == 1,
        total: numbers[67],
    }
}

// The count and the total of a record in their places, after a call that gave this answer, where the count was this and the total is now this. A
// refused call stores nothing.
pub fn store(count: usize, total: i64, answer: Answer, numbers: &mut [i64])
    requires count_lt_frame_limit { (told answer).0 ≡ 0 → count < frame_limit }
    requires numbers_len { (length numbers.old ≡ 68) × (at numbers.old 1 ≡ pos count) }
    requires numbers_value { ((told answer).0 ≡ 0 → ⊥) → at numbers.old 67 ≡ total }
    ensures { numbers.new ≡ set (set numbers.old 1 (pos (next_count (told answer).0 count))) 67 total }
{
    if answer.is_ok() {
        numbers[1] = (count + 1) as i64;
        numbers[67] = total;
    }
}

// The record that the numbers are; where they are none, a record of width 0.
pub fn unpack(numbers: &[i64]) -> Run
    ensures { result ≡ unpacked numbers.now }
{
    let mut held = record::nothing_held();
    if !is_record(numbers) {
        return record::make(0, 0, held, false, 0);
    }
    vectors::copy(&numbers[3..67], &mut held);
    let head = front(numbers);
    record::make(head.width, head.count, held, head.finished, head.total)
}

pub fn pack(run: Run, numbers: &mut [i64])
    requires { Packable run numbers.old }
    ensures { numbers.new ≡ packed run }
{
    let held = run.held;
    let total = run.total;
    numbers[0] = run.width as i64;
    numbers[1] = run.count as i64;
    numbers[2] = run.finished as i64;
    vectors::copy(&held, &mut numbers[3..67]);
    numbers[67] = total;
}
