// Whole runs over lent slices, and the five stages alone, for C.
ghost use Rattle.std.specs.Prelude.{◌≡◌};
ghost use Rattle.runs.specs.Alone.{stages_alone, unstages_alone};
ghost use Rattle.runs.specs.Whole.{whole_forward, WholeRun};
ghost use Rattle.runs.specs.WholeBack.{whole_back};

use alone::frame;
use c_record::answer;

// The whole run forward: every block's frame, and the finish's.
#[unsafe(no_mangle)]
pub extern "C" fn lapped_forward(
    width: usize,
    readings: &[i32],
    frames: &mut [i32],
    place: &mut usize,
) -> u32
    ensures frames_after { ((result, place.new), frames.new) ≡ whole_forward width readings.now frames.old }
    ensures whole_run { result ≡ 0 → WholeRun width readings.now frames.new }
{
    let answer = whole_forward::whole::forward(width, readings, frames);
    answer::tell(answer, place)
}

// The whole run back: the readings that its frames came from.
#[unsafe(no_mangle)]
pub extern "C" fn lapped_back(
    width: usize,
    frames: &[i32],
    readings: &mut [i32],
    place: &mut usize,
) -> u32
    ensures { ((result, place.new), readings.new) ≡ whole_back width frames.now readings.old }
{
    let answer = whole_back::whole::back(width, frames, readings);
    answer::tell(answer, place)
}

// Folded values to the coefficients of their frame.
#[unsafe(no_mangle)]
pub extern "C" fn lapped_stages(
    width: usize,
    folded: &[i32],
    frame: &mut [i32],
    place: &mut usize,
) -> u32
    ensures { ((result, place.new), frame.new) ≡ stages_alone width folded.now frame.old }
{
    let answer = frame::stages(width, folded, frame);
    answer::tell(answer, place)
}

// The coefficients of a frame to its folded values.
#[unsafe(no_mangle)]
pub extern "C" fn lapped_unstages(
    width: usize,
    frame: &[i32],
    folded: &mut [i32],
    place: &mut usize,
) -> u32
    ensures { ((result, place.new), folded.new) ≡ unstages_alone width frame.now folded.old }
{
    let answer = frame::unstages(width, frame, folded);
    answer::tell(answer, place)
}
