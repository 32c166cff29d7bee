// What is printed for a refused line, and where nothing is printed.
ghost use Rattle.std.specs.Prelude.{◌≡◌, [], ◌≤◌, Err};
ghost use Rattle.runs.specs.Answers.{told};
ghost use Rattle.text_runs.specs.State.{result_of, refused};
ghost use Rattle.text_runs.specs.Line.{bad_form};

use decimal::print;
use runs::answer;
use runs::answer::{Answer, Refusal};
use text_runs::state;
use text_runs::state::{Phase, Printed, State};

#[tactic(auto, unfolding(text_runs::specs::State::result_of))]
pub fn silent(state: State) -> Printed
    ensures result_value { result_of result ≡ (state, []) }
    ensures length_bound { result.length ≤ 2048 }
{
    Printed {
        state,
        text: [0u8; 2048],
        length: 0,
    }
}

pub fn by(state: State, number: usize, place: usize) -> Printed
    ensures result_value { result_of result ≡ refused state (number, place) }
    ensures length_bound { result.length ≤ 2048 }
{
    let run = state.run;
    let line = state::line_number(state);
    let mut text = [0u8; 2048];
    let n = print::refusal(&mut text, 0, number, line, place);
    let length = print::bytes(&mut text, n, b"\n");
    Printed {
        state: state::with_run(state, Phase::Over, run),
        text,
        length,
    }
}

// By the number and the place of an answer.
pub fn by_answer(state: State, answer: Answer) -> Printed
    ensures result_value { result_of result ≡ refused state (told answer) }
    ensures length_bound { result.length ≤ 2048 }
{
    by(state, answer::number(answer), answer::place(answer))
}

// By those of a call's refusal.
pub fn by_refusal(state: State, refusal: Refusal) -> Printed
    ensures result_value { result_of result ≡ refused state (told (Err refusal)) }
    ensures length_bound { result.length ≤ 2048 }
{
    by_answer(state, Err(refusal))
}

#[tactic(auto, unfolding(text_runs::specs::Line::bad_form))]
pub fn bad_form(state: State) -> Printed
    ensures result_value { result_of result ≡ bad_form state }
    ensures length_bound { result.length ≤ 2048 }
{
    by(state, 13, 0)
}
