// What the valve's questions answer, and what an ask and a make give.
ghost use Rattle.std.specs.Prelude.{◌≡◌};
ghost use Rattle.valves.specs.Answers.{told};

use crate::record::{Ticket, Valve};

// Why an ask or a make is refused. The number of each refusal, and its place, are in the definition `told`.
#[derive(Clone, Copy, PartialEq, Eq)]
pub enum Refusal {
    Width,
    InputLength,
    DeadMark(usize),
    Range(usize),
    Limits,
    AllMade,
    OtherCount,
}

pub type Answer = Result<(), Refusal>;

// An ask's ticket, which a refused ask has none of.
pub type Asked = Result<Ticket, Refusal>;

// What a make hands back.
#[derive(Clone, Copy)]
pub struct Made {
    pub valve: Valve,
    pub answer: Answer,
}

// An answer's number and its place.
#[tactic(auto, unfolding(crate::specs::Answers::told))]
fn told_of(answer: Answer) -> (usize, usize)
    ensures { result ≡ told answer }
{
    match answer {
        Ok(()) => (0, 0),
        Err(Refusal::Width) => (1, 0),
        Err(Refusal::InputLength) => (6, 0),
        Err(Refusal::DeadMark(i)) => (8, i),
        Err(Refusal::Range(i)) => (9, i),
        Err(Refusal::Limits) => (17, 0),
        Err(Refusal::AllMade) => (18, 0),
        Err(Refusal::OtherCount) => (19, 0),
    }
}

// The paper's number of an answer, 0 for work done.
pub fn number(answer: Answer) -> usize
    ensures { result ≡ (told answer).0 }
{
    told_of(answer).0
}

// Its place, 0 where there is none.
pub fn place(answer: Answer) -> usize
    ensures { result ≡ (told answer).1 }
{
    told_of(answer).1
}
