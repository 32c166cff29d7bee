// Every frame of a whole run back is asked, and nothing is written: the answer of the first refused call.
ghost use Rattle.std.specs.Prelude.{Err, ◌≡◌, ◌-◌, ◌*◌, ◌≤◌, ◌<◌, pos, length};
ghost use Rattle.integers.specs.Places.{Within};
ghost use Rattle.tables.specs.Widths.{half_width};
ghost use Rattle.steps.specs.Limits.{folded_limit};
ghost use Rattle.runs.specs.Answers.{told, first_beyond};
ghost use Rattle.runs.specs.Record.{frame_limit, zeros, opened};
ghost use Rattle.runs.specs.Forward.{started};
ghost use Rattle.runs.specs.Back.{taken_back};
ghost use Rattle.runs.specs.Answers;
ghost use Rattle.runs.specs.WholeBack.{first_answer};
ghost use Rattle.frames.specs.Own.WideRoom.{WideRoom};
ghost use Rattle.asking_back.specs.Own.Ready.{WholeFrames, told_held};

use frames::{step, undo};
use gate::questions;
use runs::answer::{Answer, Refusal};
use runs::record;
use slices::room;
use width_tables::parts::Tables;

// A refusal with its place counted through the run: through the frames, and for question 12 through the readings.
fn placed(width: usize, offset: usize, refusal: Refusal) -> Refusal
    requires { (offset ≤ frame_limit * 128) × ((told (Err refusal)).1 ≤ 128) }
    ensures { told (Err result) ≡ Answers.placed width offset (told (Err refusal)) }
{
    match refusal {
        Refusal::DeadMark(i) => Refusal::DeadMark(offset + i),
        Refusal::Range(i) => Refusal::Range(offset + i),
        Refusal::Folded(i) => Refusal::Folded(offset + i),
        Refusal::Halves(i) => Refusal::Halves(offset + i),
        Refusal::Unfolded(i) => Refusal::Unfolded(offset.saturating_sub(width) + i),
        other => other,
    }
}

// Question 11 at the finish. Its place is counted from the beginning of the last frame.
fn finish_answer(offset: usize, held: &[i64]) -> Answer
    requires { (offset ≤ frame_limit * 128) × (length held.now ≤ 64) }
    ensures { told result ≡ told_held offset (first_beyond (pos 0) held.now 0) }
{
    match questions::first_beyond(held, 0) {
        Some(place) => Err(Refusal::Halves(offset + place)),
        None => Ok(()),
    }
}

// The answer of the first refused call of a fresh run. block is room for what a frame writes, and what follows it is room to work in.
fn answer_of(
    t: &Tables,
    frames: &[i32],
    held: &mut [i64],
    block: &mut [i32],
    top: &mut [i64],
    bottom: &mut [i64],
    y: &mut [i64],
    z: &mut [i64],
) -> Answer
    requires held_value { held.old ≡ zeros (half_width t.now.width) }
    requires whole_frames { WholeFrames t.now.width frames.now }
    requires block_len { length block.old ≡ t.now.width }
    requires wide_room { WideRoom t.now.width top.old bottom.old y.old z.old }
    ensures { told result ≡ first_answer t.now.width frames.now (zeros (length frames.now - t.now.width)) }
{
    let width = t.width;
    for count in 0..frames.len() / width {
        let at = count * width;
        let asked = undo::undo(
            count,
            t,
            &frames[at..at + width],
            held,
            block,
            top,
            bottom,
            y,
            z,
        );
        if let Err(refusal) = asked {
            return Err(placed(width, at, refusal));
        }
    }
    finish_answer(frames.len() - width, held)
}

// The same, in room of its own.
pub fn first_answer(t: &Tables, frames: &[i32]) -> Answer
    requires whole_frames { WholeFrames t.now.width frames.now }
    ensures { told result ≡ first_answer t.now.width frames.now (zeros (length frames.now - t.now.width)) }
{
    let width = t.width;
    let half = t.half();
    let mut held = record::nothing_held();
    let mut block = step::zero_block();
    let mut top = room::zeros::<64>();
    let mut bottom = room::zeros::<64>();
    let mut y = room::zeros::<648>();
    let mut z = room::zeros::<648>();
    answer_of(
        t,
        frames,
        &mut held[..half],
        &mut block[..width],
        &mut top[..half],
        &mut bottom[..half],
        &mut y,
        &mut z,
    )
}

// The first frame of a fresh run, which writes nothing; what it holds for the next one.
pub fn first_frame(
    t: &Tables,
    frame: &[i32],
    held: &mut [i64],
    top: &mut [i64],
    bottom: &mut [i64],
    y: &mut [i64],
    z: &mut [i64],
)
    requires frame_len { (length frame.now ≡ t.now.width) × (held.old ≡ zeros (half_width t.now.width)) }
    requires wide_room { WideRoom t.now.width top.old bottom.old y.old z.old }
    ensures { (taken_back (started t.now.width).1 frame.now (zeros t.now.width)).0.0 ≡ 0 → (opened t.now.width 1 (pos 0) held.new ≡ (taken_back (started t.now.width).1 frame.now (zeros t.now.width)).1) × Within folded_limit held.new }
{
    let width = t.width;
    let mut block = step::zero_block();
    let _ = undo::undo(0, t, frame, held, &mut block[..width], top, bottom, y, z);
}
