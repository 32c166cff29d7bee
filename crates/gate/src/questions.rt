// The gate's questions about a run record, about lengths, and about the numbers of a block or a frame.
ghost use Rattle.std.specs.Prelude.{◌≡◌, cond, ◌*◌, ◌%◌, ◌≤◌, ◌<◌, pos, nat_abs, ◌+ℤ◌, length, ◌≤ℤ◌};
ghost use Rattle.integers.specs.Vectors.{sum_of};
ghost use Rattle.steps.specs.Limits.{reading_limit};
ghost use Rattle.runs.specs.Answers.{told, beyond, first_beyond};
ghost use Rattle.runs.specs.Record.{block_limit, frame_limit, record_of, outcome_of, next_count, next_total};
ghost use Rattle.runs.specs.Gate.{blocks_behind, dead, first_dead};
ghost use Rattle.runs.specs.Totals.{total_limit};
ghost use Rattle.gate.specs.Own.Asked.{StillOpen, Admitted, in_parts};
ghost use Rattle.gate.specs.Own.Faults.{refusal_of, fault_of};

use constants::widths;
use runs::answer::{Answer, Refusal};
use runs::record::{Outcome, Run};
use runs::{limits, record};
use slices::{room, vectors};

// The first reading that questions 8 and 9 refuse.
#[derive(Clone, Copy, PartialEq, Eq)]
pub enum Fault {
    Dead(usize),
    Beyond(usize),
}

impl From<Fault> for Refusal {
    ghost from_gives = { λ f e. e ≡ refusal_of f };

    fn from(fault: Fault) -> Refusal {
        match fault {
            Fault::Dead(place) => Refusal::DeadMark(place),
            Fault::Beyond(place) => Refusal::Range(place),
        }
    }
}

fn beyond(value: i64, limit: i64) -> bool
    requires { pos 0 ≤ℤ limit }
    ensures { result ≡ beyond limit value }
{
    limit < value || value < -limit
}

// The first number beyond ±limit.
pub fn first_beyond(x: &[i64], limit: i32) -> Option<usize>
    requires { pos 0 ≤ℤ limit }
    ensures { result ≡ first_beyond limit x.now 0 }
{
    let high = i64::from(limit);
    for (i, v) in x.iter().enumerate() {
        if beyond(*v, high) {
            return Some(i);
        }
    }
    None
}

fn inside(x: &[i64], limit: i32) -> bool
    requires { pos 0 ≤ℤ limit }
    ensures { result ≡ Rattle.runs.specs.Gate.inside limit x.now }
{
    first_beyond(x, limit).is_none()
}

// Whether every number is zero. The bits of all are gathered without a branch, which the machine does two numbers at a time.
fn clear(x: &[i64]) -> bool
    ensures { result ≡ Rattle.runs.specs.Gate.inside (pos 0) x.now }
{
    let mut any = 0;
    for v in x {
        any |= *v;
    }
    any == 0
}

// The blocks of a run: b blocks give b + 1 frames, and the count is of blocks forward, of frames back.
#[tactic(auto, unfolding(runs::specs::Gate::blocks_behind))]
fn blocks_behind(top: usize, count: usize) -> usize
    requires { (count ≤ top) × (top ≤ frame_limit) }
    ensures { (result ≡ blocks_behind top count) × (result ≤ block_limit) }
{
    let frames = count + (limits::FRAME_LIMIT - top);
    if frames == 0 {
        return 0;
    }
    frames - 1
}

// The greatest size that their total can have.
fn greatest_total(top: usize, width: usize, count: usize) -> usize
    requires { (count ≤ top) × (top ≤ frame_limit) × (width ≤ 128) }
    ensures { (result ≡ blocks_behind top count * width * reading_limit) × (result ≤ total_limit) }
{
    blocks_behind(top, count) * width * limits::READING_LIMIT as usize
}

fn total_beyond(total: i64, limit: usize) -> bool
    requires { limit ≤ total_limit }
    ensures { result ≡ beyond (pos limit) total }
{
    beyond(total, limit as i64)
}

// Question 2. The held values of the record are lent.
fn sound(top: usize, width: usize, count: usize, finished: bool, total: i64, held: &[i64]) -> bool
    requires { (top ≤ frame_limit) × (length held.now ≡ 64) }
    ensures { result ≡ Rattle.runs.specs.Gate.sound top (record_of width count held.now finished total) }
{
    let half = widths::half_width(width);
    if half == 0 {
        return false;
    }
    if top < count {
        return false;
    }
    if total_beyond(total, greatest_total(top, width, count)) {
        return false;
    }
    if !clear(&held[half..]) {
        return false;
    }
    if count == 0 {
        return clear(&held[..half]);
    }
    if finished {
        return clear(&held[..half]);
    }
    inside(&held[..half], limits::FOLDED_LIMIT)
}

// Questions 2 and 3, to every call on a record.
pub fn still_open(
    top: usize,
    width: usize,
    count: usize,
    finished: bool,
    total: i64,
    held: &[i64],
) -> Answer
    requires { (top ≤ frame_limit) × (length held.now ≡ 64) }
    ensures { StillOpen top (record_of width count held.now finished total) result }
{
    if !sound(top, width, count, finished, total, held) {
        return Err(Refusal::Record);
    }
    if finished {
        return Err(Refusal::Closed);
    }
    Ok(())
}

// Questions 2, 3, 4, 6 and 7, to a block or a frame: given numbers are handed in, and out lent for the output.
pub fn admitted(
    top: usize,
    width: usize,
    count: usize,
    finished: bool,
    total: i64,
    held: &[i64],
    given: usize,
    out: usize,
) -> Answer
    requires { (top ≤ frame_limit) × (length held.now ≡ 64) }
    ensures { Admitted top (record_of width count held.now finished total) given out result }
{
    still_open(top, width, count, finished, total, held)?;
    if count == top {
        return Err(Refusal::Full);
    }
    if given != width {
        return Err(Refusal::InputLength);
    }
    if out != width {
        return Err(Refusal::OutputLength);
    }
    Ok(())
}

// Questions 1 and 6, where there is no record: a good width, and an input of whole blocks or frames, from least to most of them.
pub fn in_parts(width: usize, given: usize, least: usize, most: usize) -> Answer
    ensures { told result ≡ in_parts width given least most }
{
    if widths::half_width(width) == 0 {
        return Err(Refusal::Width);
    }
    if given % width != 0 {
        return Err(Refusal::InputLength);
    }
    let parts = given / width;
    if most < parts {
        return Err(Refusal::InputLength);
    }
    if parts < least {
        return Err(Refusal::InputLength);
    }
    Ok(())
}

fn dead(value: i64) -> bool
    ensures { result ≡ dead value }
{
    value == limits::DEAD_MARK
}

fn first_dead(x: &[i64]) -> Option<usize>
    ensures { result ≡ first_dead x.now 0 }
{
    for (i, v) in x.iter().enumerate() {
        if dead(*v) {
            return Some(i);
        }
    }
    None
}

fn fault_in(block: &[i64]) -> Result<(), Fault>
    ensures { result ≡ fault_of block.now }
{
    if let Some(place) = first_dead(block) {
        return Err(Fault::Dead(place));
    }
    if let Some(place) = first_beyond(block, limits::READING_LIMIT) {
        return Err(Fault::Beyond(place));
    }
    Ok(())
}

// The search for the fault of a block that has one.
fn searched(block: &[i32]) -> Result<(), Fault>
    requires { (length block.now ≤ 128) × (length block.now % 4 ≡ 0) }
    ensures { result ≡ fault_of block.now }
{
    let n = block.len();
    let mut wide = room::zeros::<128>();
    vectors::widen(block, &mut wide[..n]);
    fault_in(&wide[..n])
}

// 1 for a number beyond ±limit, else 0.
fn out_of_range(value: i32, limit: i32) -> u32
    requires { pos 0 ≤ℤ limit }
    ensures { result ≡ cond (beyond limit value) 1 0 }
{
    u32::from(limit < value || value < -limit)
}

// Those beyond are counted without a branch, which the machine does several at a time.
pub fn in_range(x: &[i32], limit: i32) -> bool
    requires { (length x.now ≤ block_limit * 128) × (pos 0 ≤ℤ limit) }
    ensures { result ≡ Rattle.runs.specs.Gate.inside limit x.now }
{
    let mut out = 0;
    for v in x {
        out += out_of_range(*v, limit);
    }
    out == 0
}

// The first number beyond ±limit, of numbers that are seldom out of range; wide is room for the search.
pub fn seldom_beyond(x: &[i32], limit: i32, wide: &mut [i64]) -> Option<usize>
    requires x_len_bound { (length x.now ≤ 128) × (length x.now % 4 ≡ 0) × (length x.now ≡ length wide.old) }
    requires pos_bound { pos 0 ≤ℤ limit }
    ensures { result ≡ first_beyond limit x.now 0 }
{
    if in_range(x, limit) {
        return None;
    }
    vectors::widen(x, wide);
    first_beyond(wide, limit)
}

// Questions 8 and 9. The dead mark is out of range too, so that readings in range have no fault.
pub fn fault_of(block: &[i32]) -> Result<(), Fault>
    requires { (length block.now ≤ 128) × (length block.now % 4 ≡ 0) }
    ensures { result ≡ fault_of block.now }
{
    if in_range(block, limits::READING_LIMIT) {
        return Ok(());
    }
    searched(block)
}

// The count after a call that gave this answer.
fn next_count(count: usize, answer: Answer) -> usize
    requires { (told answer).0 ≡ 0 → count < frame_limit }
    ensures { result ≡ next_count (told answer).0 count }
{
    match answer {
        Ok(()) => count + 1,
        Err(_) => count,
    }
}

// The total after it, of a block's readings that it took or gave.
pub fn next_total(total: i64, answer: Answer, readings: &[i32]) -> i64
    requires { (told answer).0 ≡ 0 → (length readings.now ≤ 128) × (nat_abs (total +ℤ sum_of readings.now) ≤ total_limit) }
    ensures { result ≡ next_total (told answer).0 total readings.now }
{
    match answer {
        Ok(()) => total + vectors::sum(readings),
        Err(_) => total,
    }
}

// What a call hands back that took a block or a frame: the held values, the total, and one more of the count where it has worked.
pub fn after_take(run: Run, held: [i64; 64], answer: Answer, total: i64) -> Outcome
    requires { (told answer).0 ≡ 0 → run.count < frame_limit }
    ensures { result ≡ outcome_of (record_of run.width (next_count (told answer).0 run.count) held run.finished total) answer }
{
    let count = next_count(run.count, answer);
    record::hand_back(
        record::make(run.width, count, held, run.finished, total),
        answer,
    )
}
