// How far a text program has come: the run's state, and how it ended.
ghost use Rattle.std.specs.Prelude.{◌≡◌};
ghost use Rattle.feeding.specs.Text.{session_begun, is_over};

use feeding::session::{Ending, Session};
use text_runs::state;
use text_runs::state::Way;

pub fn begin(way: Way) -> Session
    ensures { result ≡ session_begun way }
{
    let fresh = state::begin(way);
    Session {
        state: fresh,
        ending: Ending::Open,
    }
}

pub fn is_over(session: Session) -> bool
    ensures { result ≡ is_over session }
{
    let state = session.state;
    !state::goes_on(state)
}
