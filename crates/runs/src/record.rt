// The run record, and what a call hands back.
ghost use Rattle.std.specs.Prelude.{◌≡◌, pos, replicate};
ghost use Rattle.runs.specs.Record.{record_of, outcome_of};

use crate::answer::Answer;

// Going forward, held[i] becomes folded value M+i of the next frame; going back, it is folded value i of the last frame. The total is of the
// readings taken or given.
#[derive(Clone, Copy, PartialEq, Eq)]
pub struct Run {
    pub width: usize,
    pub count: usize,
    pub held: [i64; 64],
    pub finished: bool,
    pub total: i64,
}

#[derive(Clone, Copy)]
pub struct Outcome {
    pub run: Run,
    pub answer: Answer,
}

// Every record is made here, and every outcome below.
pub fn make(width: usize, count: usize, held: [i64; 64], finished: bool, total: i64) -> Run
    ensures { result ≡ record_of width count held finished total }
{
    Run {
        width: width,
        count: count,
        held: held,
        finished: finished,
        total: total,
    }
}

pub fn hand_back(run: Run, answer: Answer) -> Outcome
    ensures { result ≡ outcome_of run answer }
{
    Outcome {
        run: run,
        answer: answer,
    }
}

pub fn nothing_held() -> [i64; 64]
    ensures { result ≡ replicate 64 (pos 0) }
{
    [0; 64]
}
