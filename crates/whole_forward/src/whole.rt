// A whole run over lent slices, for any caller.
ghost use Rattle.std.specs.Prelude.{◌≡◌, length, ◌+◌, ◌/◌, Ok};
ghost use Rattle.runs.specs.Answers.{told};
ghost use Rattle.gate.specs.Own.Faults.{first_fault};
ghost use Rattle.runs.specs.Forward.{started};
ghost use Rattle.runs.specs.Calls.{made};
ghost use Rattle.runs.specs.Whole.{calls_of, outputs, whole_forward, WholeRun};
ghost use Rattle.gate.specs.Own.Ready.{WholeBlocks};

use frames::step;
use gate::questions;
use gate::questions::Fault;
use runs::answer::{Answer, Refusal};
use runs::{limits, record};
use slices::room;
use width_tables::fill;
use width_tables::parts::Tables;

// The search through the blocks of a run that has a fault.
fn searched(width: usize, readings: &[i32]) -> Result<(), Fault>
    requires { WholeBlocks width readings.now }
    ensures { result ≡ first_fault width 0 (length readings.now / width) readings.now }
{
    for i in 0..readings.len() / width {
        let at = i * width;
        match questions::fault_of(&readings[at..at + width]) {
            Err(Fault::Dead(place)) => return Err(Fault::Dead(at + place)),
            Err(Fault::Beyond(place)) => return Err(Fault::Beyond(at + place)),
            Ok(()) => {}
        }
    }
    Ok(())
}

// The first reading that a block refuses, its place counted through the run.
fn first_fault(width: usize, readings: &[i32]) -> Result<(), Fault>
    requires { WholeBlocks width readings.now }
    ensures { result ≡ first_fault width 0 (length readings.now / width) readings.now }
{
    if questions::in_range(readings, limits::READING_LIMIT) {
        return Ok(());
    }
    searched(width, readings)
}

// Each block is lent to the block step as it lies; t, the held values and the room are made once.
fn frames_with(t: &Tables, readings: &[i32], frames: &mut [i32])
    requires whole_blocks { WholeBlocks t.now.width readings.now }
    requires frames_len { length frames.old ≡ length readings.now + t.now.width }
    requires readings_value { first_fault t.now.width 0 (length readings.now / t.now.width) readings.now ≡ Ok tt }
    ensures { frames.new ≡ outputs (made (started t.now.width).1 (calls_of t.now.width (length readings.now / t.now.width) readings.now frames.old)) }
{
    let width = t.width;
    let half = t.half();
    let mut held = record::nothing_held();
    let mut top = room::zeros::<64>();
    let mut bottom = room::zeros::<64>();
    let mut y = room::zeros::<648>();
    let mut z = room::zeros::<648>();
    for i in 0..readings.len() / width {
        let at = i * width;
        step::step(
            t,
            &readings[at..at + width],
            &mut held[..half],
            &mut frames[at..at + width],
            &mut top[..half],
            &mut bottom[..half],
            &mut y,
            &mut z,
        );
    }
    let zeros = step::zero_block();
    step::step(
        t,
        &zeros[..width],
        &mut held[..half],
        &mut frames[readings.len()..],
        &mut top[..half],
        &mut bottom[..half],
        &mut y,
        &mut z,
    );
}

fn frames_of(width: usize, readings: &[i32], frames: &mut [i32])
    requires whole_blocks { WholeBlocks width readings.now }
    requires frames_len { length frames.old ≡ length readings.now + width }
    requires readings_value { first_fault width 0 (length readings.now / width) readings.now ≡ Ok tt }
    ensures { frames.new ≡ outputs (made (started width).1 (calls_of width (length readings.now / width) readings.now frames.old)) }
{
    let long = fill::tables_long(width);
    let mut t = room::zeros::<1906>();
    let mut room = room::zeros::<648>();
    fill::fill(width, &mut t[..long], &mut room);
    let tables = Tables {
        width,
        numbers: &t[..long],
    };
    frames_with(&tables, readings, frames);
}

// The whole run forward: every block's frame, and the finish's.
pub fn forward(width: usize, readings: &[i32], frames: &mut [i32]) -> Answer
    ensures frames_after { (told result, frames.new) ≡ whole_forward width readings.now frames.old }
    ensures whole_run { told result ≡ (0, 0) → WholeRun width readings.now frames.new }
{
    questions::in_parts(width, readings.len(), 0, limits::BLOCK_LIMIT)?;
    if frames.len() != readings.len() + width {
        return Err(Refusal::OutputLength);
    }
    first_fault(width, readings)?;
    frames_of(width, readings, frames);
    Ok(())
}
