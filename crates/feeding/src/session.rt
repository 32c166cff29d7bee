// How far a text program has come.
use text_runs::state::State;

// How a text run ended. A refusal has the number, the line and the place that its line names.
#[derive(Clone, Copy)]
pub enum Ending {
    Open,
    Whole,
    Refused(i32, i32, i32),
}

#[derive(Clone, Copy)]
pub struct Session {
    pub state: State,
    pub ending: Ending,
}
