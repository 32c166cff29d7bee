// An answer for C: its number by value, its place in a lent number, and the record in a lent slice.
ghost use Rattle.std.specs.Prelude.{◌≡◌};
ghost use Rattle.runs.specs.Answers.{told};
ghost use Rattle.c_record.specs.Calls.{numbers_after};
ghost use Rattle.c_record.specs.Ready.{Packable};

use crate::record;
use runs::answer::Answer;
use runs::record::Outcome;

pub fn tell(answer: Answer, place: &mut usize) -> u32
    ensures { (result, place.new) ≡ told answer }
{
    let number = runs::answer::number(answer);
    let at = runs::answer::place(answer);
    *place = at;
    number as u32
}

// The record is packed where the call has worked.
#[tactic(auto, using(crate::proofs::AnswerLaws::hand_back))]
pub fn hand_back(outcome: Outcome, numbers: &mut [i64], place: &mut usize) -> u32
    requires { (told outcome.answer).0 ≡ 0 → Packable outcome.run numbers.old }
    ensures place_after { (result, place.new) ≡ told outcome.answer }
    ensures numbers_after { numbers.new ≡ numbers_after (told outcome.answer).0 outcome.run numbers.old }
{
    let answer = outcome.answer;
    if answer.is_ok() {
        record::pack(outcome.run, numbers);
    }
    tell(answer, place)
}
