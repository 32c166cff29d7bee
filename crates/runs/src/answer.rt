// What a call answers.
ghost use Rattle.std.specs.Prelude.{◌≡◌};
ghost use Rattle.runs.specs.Answers.{told};

// Why a call is refused. The number of each refusal, and its place, are in the definition `told`.
#[derive(Clone, Copy, PartialEq, Eq)]
pub enum Refusal {
    Width,
    Record,
    Closed,
    Full,
    Empty,
    InputLength,
    OutputLength,
    DeadMark(usize),
    Range(usize),
    Folded(usize),
    Halves(usize),
    Unfolded(usize),
}

pub type Answer = Result<(), Refusal>;

// An answer's number and its place.
#[tactic(auto, unfolding(crate::specs::Answers::told))]
fn told_of(answer: Answer) -> (usize, usize)
    ensures { result ≡ told answer }
{
    match answer {
        Ok(()) => (0, 0),
        Err(Refusal::Width) => (1, 0),
        Err(Refusal::Record) => (2, 0),
        Err(Refusal::Closed) => (3, 0),
        Err(Refusal::Full) => (4, 0),
        Err(Refusal::Empty) => (5, 0),
        Err(Refusal::InputLength) => (6, 0),
        Err(Refusal::OutputLength) => (7, 0),
        Err(Refusal::DeadMark(i)) => (8, i),
        Err(Refusal::Range(i)) => (9, i),
        Err(Refusal::Folded(i)) => (10, i),
        Err(Refusal::Halves(i)) => (11, i),
        Err(Refusal::Unfolded(i)) => (12, i),
    }
}

// The paper's number of an answer, 0 for work done.
pub fn number(answer: Answer) -> usize
    ensures { result ≡ (told answer).0 }
{
    told_of(answer).0
}

// Its place, 0 where there is none.
pub fn place(answer: Answer) -> usize
    ensures { result ≡ (told answer).1 }
{
    told_of(answer).1
}
