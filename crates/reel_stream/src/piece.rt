// The squares over a reel as one of the programs over lines.
ghost use Rattle.std.specs.Prelude.{refl};
ghost use Rattle.pieces.specs.Step.{letters_of};
ghost use Rattle.reels.specs.Limits.{most_printed};
ghost use Rattle.reels.specs.Program.{reel_program};
ghost use Rattle.reels.proofs.LinesLeft.{reel-bounded};
ghost use Rattle.reel_stream.specs.Reel.{reel_limits};

use pieces::step::{Given, Program};
use reel_lines::input;
use reel_page::page;
use reels::reel::Reel;
use reels::{limits, reel};

pub struct Squares;

impl Program for Squares {
    type State = Reel;

    const MOST: usize = limits::MOST_PRINTED;

    ghost MOST = { most_printed };

    ghost letters = { letters_of reel_program };

    ghost limits = { reel_limits };

    ghost bounded = { reel-bounded };

    fn is_over(state: &Reel) -> bool {
        reel::is_over(state.phase)
    }

    // A line comes to no page, so its refusal is all that it can print.
    fn hand_on(
        state: Reel,
        whole: bool,
        line: &[u8],
        out: &mut [u8],
        waiting: usize,
    ) -> Given<Reel> {
        let given = input::take(state, whole, line);
        Given {
            state: given,
            waiting: page::refusal(given.phase, out, waiting),
        }
    }

    // One that was over before says nothing more.
    fn end(state: Reel, out: &mut [u8], waiting: usize) -> Given<Reel> {
        let given = input::end(state);
        let behind = if reel::is_over(state.phase) {
            waiting
        } else {
            page::says(given, out, waiting)
        };
        Given {
            state: given,
            waiting: behind,
        }
    }

    ghost most = { refl };
}
