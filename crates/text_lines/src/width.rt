// The first line: the width.
ghost use Rattle.std.specs.Prelude.{◌≡◌, ◌≤◌};
ghost use Rattle.text_runs.specs.State.{result_of};
ghost use Rattle.text_runs.specs.Line.{width_started, width_taken};

use calls_forward::forward;
use decimal::print;
use text_runs::state;
use text_runs::state::{Phase, Printed, State};
use text_state::refuse;

fn start_run(state: State, width: usize) -> Printed
    ensures result_value { result_of result ≡ width_started state width }
    ensures length_bound { result.length ≤ 2048 }
{
    let begun = forward::start(width);
    if let Err(refusal) = begun.answer {
        return refuse::by_refusal(state, refusal);
    }
    let mut text = [0u8; 2048];
    let length = print::last_natural(&mut text, 0, width as u64);
    Printed {
        state: state::with_run(state, Phase::Between, begun.run),
        text,
        length,
    }
}

pub fn take_width(state: State, field: Option<i64>) -> Printed
    ensures result_value { result_of result ≡ width_taken state field }
    ensures length_bound { result.length ≤ 2048 }
{
    let Some(width) = field else {
        return refuse::bad_form(state);
    };
    match usize::try_from(width) {
        Ok(width) => start_run(state, width),
        Err(_) => refuse::by(state, 1, 0),
    }
}
