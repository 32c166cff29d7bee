// What a line of a reel is answered.
ghost use Rattle.std.specs.Prelude.{◌≡◌};
ghost use Rattle.reels.specs.Verdicts.{verdict_told};

// Why a line is refused. The number of each refusal, and its place, are in the definition `verdict_told`.
#[derive(Clone, Copy, PartialEq, Eq)]
pub enum Refusal {
    Width,
    Full,
    Empty,
    Length,
    Range(usize),
    Form,
    OtherWidth,
    RunTooMany,
}

pub type Verdict = Result<(), Refusal>;

// A verdict's number and its place.
#[tactic(auto, unfolding(crate::specs::Verdicts::verdict_told))]
pub fn told_by(verdict: Verdict) -> (usize, usize)
    ensures { result ≡ verdict_told verdict }
{
    match verdict {
        Ok(()) => (0, 0),
        Err(Refusal::Width) => (1, 0),
        Err(Refusal::Full) => (4, 0),
        Err(Refusal::Empty) => (5, 0),
        Err(Refusal::Length) => (6, 0),
        Err(Refusal::Range(i)) => (9, i),
        Err(Refusal::Form) => (13, 0),
        Err(Refusal::OtherWidth) => (14, 0),
        Err(Refusal::RunTooMany) => (15, 0),
    }
}
