// The text programs as one of the programs over lines.
ghost use Rattle.std.specs.Prelude.{◌≡◌, refl, ◌+◌, ◌≤◌, length};
ghost use Rattle.pieces.specs.Piece.{Gives};
ghost use Rattle.pieces.specs.Step.{letters_of, given_at};
ghost use Rattle.text_runs.specs.State.{result_of};
ghost use Rattle.feeding.specs.Text.{session_after, text_program};
ghost use Rattle.feeding.proofs.LinesLeft.{text-bounded};
ghost use Rattle.text_pieces.specs.Text.{text_limits};

use crate::session;
use decimal::print;
use feeding::session::{Ending, Session};
use pieces::step::{Given, Program};
use text_lines::input;
use text_runs::state::Printed;
use text_state::ending;

pub struct Text;

// What a line or the end gives, behind what waits.
fn put(before: Ending, given: Printed, out: &mut [u8], waiting: usize) -> Given<Session>
    requires { (given.length ≤ 2048) × (waiting + 2048 ≤ length out.old) }
    ensures { Gives text_program text_limits (session_after before (result_of given)) out.old waiting 0 (given_at (letters_of text_program) result 0) out.new }
{
    let printed = &given.text[..given.length];
    let ending = ending::after(before, given.state, printed);
    Given {
        state: Session {
            state: given.state,
            ending,
        },
        waiting: print::bytes(out, waiting, printed),
    }
}

impl Program for Text {
    type State = Session;

    const MOST: usize = 2048;

    ghost MOST = { 2048 };

    ghost letters = { letters_of text_program };

    ghost limits = { text_limits };

    ghost bounded = { text-bounded };

    fn is_over(state: &Session) -> bool {
        session::is_over(*state)
    }

    fn hand_on(
        state: Session,
        whole: bool,
        line: &[u8],
        out: &mut [u8],
        waiting: usize,
    ) -> Given<Session> {
        put(
            state.ending,
            input::take(state.state, whole, line),
            out,
            waiting,
        )
    }

    fn end(state: Session, out: &mut [u8], waiting: usize) -> Given<Session> {
        put(state.ending, input::end(state.state), out, waiting)
    }

    ghost most = { refl };
}
