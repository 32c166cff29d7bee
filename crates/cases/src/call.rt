// The calls of the library by kind. Of the record a start and those on whole runs and stages take the width, and these hand it back as it was.
use alone::frame;
use calls_back::back;
use calls_forward::forward;
use runs::record::{Outcome, Run};

#[derive(Clone, Copy, PartialEq, Eq)]
pub enum Call {
    Start,
    Take,
    Finish,
    TakeBack,
    FinishBack,
    WholeForward,
    WholeBack,
    Stages,
    Unstages,
}

// A number that is no call's.
#[derive(Clone, Copy, PartialEq, Eq)]
pub struct NoCall;

// The number that a case has for a call.
impl TryFrom<usize> for Call {
    type Error = NoCall;

    fn try_from(number: usize) -> Result<Call, NoCall> {
        match number {
            0 => Ok(Call::Start),
            1 => Ok(Call::Take),
            2 => Ok(Call::Finish),
            3 => Ok(Call::TakeBack),
            4 => Ok(Call::FinishBack),
            5 => Ok(Call::WholeForward),
            6 => Ok(Call::WholeBack),
            7 => Ok(Call::Stages),
            8 => Ok(Call::Unstages),
            _ => Err(NoCall),
        }
    }
}

// One call with a record.
pub fn once(call: Call, run: Run, input: &[i32], output: &mut [i32]) -> Outcome {
    let width = run.width;
    let answer = match call {
        Call::Start => return forward::start(width),
        Call::Take => return forward::take(run, input, output),
        Call::Finish => return forward::finish(run, output),
        Call::TakeBack => return back::take(run, input, output),
        Call::FinishBack => return back::finish(run),
        Call::WholeForward => whole_forward::whole::forward(width, input, output),
        Call::WholeBack => whole_back::whole::back(width, input, output),
        Call::Stages => frame::stages(width, input, output),
        Call::Unstages => frame::unstages(width, input, output),
    };
    Outcome { run, answer }
}

// The same call as often as told, each with the record of the one before; what the last one gives.
pub fn repeated(
    call: Call,
    times: usize,
    run: Run,
    input: &[i32],
    output: &mut [i32],
) -> Option<Outcome> {
    let mut given = None;
    let mut before = run;
    for _ in 0..times {
        let outcome = once(call, before, input, output);
        before = outcome.run;
        given = Some(outcome);
    }
    given
}
