// How far a reel has come.
ghost use Rattle.std.specs.Prelude.{◌≡◌, ◌*◌, ◌≤◌};
ghost use Rattle.runs.specs.Record.{frame_limit};
ghost use Rattle.reels.specs.Reel.{run_limit, reel_begun, reel_over, reel_line_number, to_phase};

// What the next line is: the width of the first run, a frame or its end line, the width of another run. Or the reel is over, whole or refused
// with a number, a line and a place.
#[derive(Clone, Copy)]
pub enum ReelPhase {
    FirstRun,
    Frames,
    NextRun,
    Whole,
    Refused(usize, usize, usize),
}

// The width of its runs; how many were begun; the frames of this run, and of all runs; and for each coefficient number the sum of the squares.
#[derive(Clone, Copy)]
pub struct Reel {
    pub phase: ReelPhase,
    pub width: usize,
    pub runs: usize,
    pub count: usize,
    pub frames: usize,
    pub sums: [i64; 128],
}

// Before the first line.
#[tactic(auto, unfolding(crate::specs::Reel::reel_begun))]
pub fn begin() -> Reel
    ensures { result ≡ reel_begun }
{
    Reel {
        phase: ReelPhase::FirstRun,
        width: 0,
        runs: 0,
        count: 0,
        frames: 0,
        sums: [0; 128],
    }
}

// The same reel in another phase.
#[tactic(auto, unfolding(crate::specs::Reel::to_phase))]
pub fn to_phase(reel: Reel, phase: ReelPhase) -> Reel
    ensures { result ≡ to_phase phase reel }
{
    Reel { phase, ..reel }
}

#[tactic(auto, unfolding(crate::specs::Reel::reel_over))]
pub fn is_over(phase: ReelPhase) -> bool
    ensures { result ≡ reel_over phase }
{
    matches!(phase, ReelPhase::Whole | ReelPhase::Refused(..))
}

// The number of the line that comes: each run has two lines besides its frames.
#[tactic(auto, unfolding(crate::specs::Reel::reel_line_number))]
pub fn line_number(phase: ReelPhase, runs: usize, frames: usize) -> usize
    requires { (runs ≤ run_limit) × (frames ≤ run_limit * frame_limit) }
    ensures { result ≡ reel_line_number phase runs frames }
{
    let behind = 2 * runs + frames;
    match phase {
        ReelPhase::Frames => behind,
        ReelPhase::FirstRun | ReelPhase::NextRun | ReelPhase::Whole | ReelPhase::Refused(..) => {
            behind + 1
        }
    }
}
