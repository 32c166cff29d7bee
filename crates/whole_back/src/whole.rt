// A whole run back over lent slices, for any caller.
ghost use Rattle.std.specs.Prelude.{◌≡◌, ◌+◌, ◌/◌, pos, length, drop};
ghost use Rattle.integers.specs.Places.{Within};
ghost use Rattle.tables.specs.Widths.{half_width};
ghost use Rattle.steps.specs.Limits.{folded_limit};
ghost use Rattle.runs.specs.Answers.{told};
ghost use Rattle.runs.specs.Record.{opened};
ghost use Rattle.gate.specs.Own.Ready.{WholeBlocks};
ghost use Rattle.runs.specs.WholeBack.{answer_from, outputs_from, first_answer, all_outputs, back_one_by_one, whole_back};
ghost use Rattle.frames.specs.Own.WideRoom.{WideRoom};
ghost use Rattle.asking_back.specs.Own.Ready.{WholeFrames};

use asking_back::asking;
use frames::undo;
use gate::questions;
use runs::answer::{Answer, Refusal};
use runs::{limits, record};
use slices::room;
use width_tables::fill;
use width_tables::parts::Tables;

// The blocks before the frames that follow the first one, none of which is refused. Each frame is lent to the frame step as it lies.
fn blocks_before(
    t: &Tables,
    frames: &[i32],
    held: &mut [i64],
    readings: &mut [i32],
    top: &mut [i64],
    bottom: &mut [i64],
    y: &mut [i64],
    z: &mut [i64],
)
    requires whole_blocks { WholeBlocks t.now.width frames.now }
    requires held_len { (length held.old ≡ half_width t.now.width) × (length readings.old ≡ length frames.now) }
    requires wide_room { WideRoom t.now.width top.old bottom.old y.old z.old }
    requires within { Within folded_limit held.old }
    requires readings_value { (answer_from t.now.width t.now.width (opened t.now.width 1 (pos 0) held.old) (length frames.now / t.now.width) frames.now readings.old).0 ≡ 0 }
    ensures { readings.new ≡ outputs_from t.now.width (opened t.now.width 1 (pos 0) held.old) (length frames.now / t.now.width) frames.now readings.old }
{
    let width = t.width;
    for i in 0..frames.len() / width {
        let at = i * width;
        undo::give_back(
            t,
            &frames[at..at + width],
            held,
            &mut readings[at..at + width],
            top,
            bottom,
            y,
            z,
        );
    }
}

// The readings of a run that is accepted.
fn readings_of(t: &Tables, frames: &[i32], readings: &mut [i32])
    requires whole_frames { WholeFrames t.now.width frames.now }
    requires width_len { length readings.old + t.now.width ≡ length frames.now }
    requires readings_value { (first_answer t.now.width frames.now readings.old).0 ≡ 0 }
    ensures { readings.new ≡ drop t.now.width (all_outputs t.now.width frames.now readings.old) }
{
    let width = t.width;
    let half = t.half();
    let mut held = record::nothing_held();
    let mut top = room::zeros::<64>();
    let mut bottom = room::zeros::<64>();
    let mut y = room::zeros::<648>();
    let mut z = room::zeros::<648>();
    asking::first_frame(
        t,
        &frames[..width],
        &mut held[..half],
        &mut top[..half],
        &mut bottom[..half],
        &mut y,
        &mut z,
    );
    blocks_before(
        t,
        &frames[width..],
        &mut held[..half],
        readings,
        &mut top[..half],
        &mut bottom[..half],
        &mut y,
        &mut z,
    );
}

// Every frame is asked before a number is written: two passes over the frames.
fn in_two_passes(width: usize, frames: &[i32], readings: &mut [i32]) -> Answer
    requires whole_frames { WholeFrames width frames.now }
    requires width_len { length readings.old + width ≡ length frames.now }
    ensures { (told result, readings.new) ≡ back_one_by_one width frames.now readings.old }
{
    let long = fill::tables_long(width);
    let mut t = room::zeros::<1906>();
    let mut room = room::zeros::<648>();
    fill::fill(width, &mut t[..long], &mut room);
    let tables = Tables {
        width,
        numbers: &t[..long],
    };
    match asking::first_answer(&tables, frames) {
        Ok(()) => readings_of(&tables, frames, readings),
        Err(refusal) => return Err(refusal),
    }
    Ok(())
}

// The whole run back: the readings that its frames came from.
pub fn back(width: usize, frames: &[i32], readings: &mut [i32]) -> Answer
    ensures { (told result, readings.new) ≡ whole_back width frames.now readings.old }
{
    questions::in_parts(width, frames.len(), 1, limits::FRAME_LIMIT)?;
    if frames.len() - width != readings.len() {
        return Err(Refusal::OutputLength);
    }
    in_two_passes(width, frames, readings)
}
