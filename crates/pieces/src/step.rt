// The lines of a piece of the input, for every program: how far the program has come goes in by value and comes back. A line changes it in
// place, since a state may be large.
ghost use Rattle.std.specs.Prelude.{◌≡◌, false, ℕ, ◌+◌, ◌≤◌, ◌<◌, length};
ghost use Rattle.feeding.specs.Budget.{Bounded};
ghost use Rattle.feeding.specs.Program.{handed};
ghost use Rattle.pieces.specs.Piece.{Limits, Buffers, Gives, HandsOn, Goes, Took, Rests, Ends};
ghost use Rattle.pieces.specs.Step.{Letters, program_of, place_of, given_at};

use crate::line;
use crate::line::LineEnd;

// What a line or the end gives: the state afterwards, and how many bytes wait in the output buffer then.
#[derive(Clone, Copy)]
pub struct Given<S> {
    pub state: S,
    pub waiting: usize,
}

// How many bytes the line buffer has of a line that no line feed has ended, how many bytes wait in the output buffer, and where to go on in
// the piece.
#[derive(Clone, Copy)]
pub struct Progress<S> {
    pub state: S,
    pub had: usize,
    pub waiting: usize,
    pub at: usize,
}

// What a program over lines does with its state.
pub trait Program {
    type State: Copy;

    // The bytes that a line or the end prints at most.
    const MOST: usize;

    ghost MOST: { ℕ };

    ghost letters: { Letters Self.State };

    ghost limits: { Limits (program_of letters) };

    // The lines that it still takes, so that its loop ends.
    ghost bounded: { Bounded (program_of letters) };

    fn is_over(state: &Self::State) -> bool
        ensures { result ≡ letters.over state.now };

    fn hand_on(
        state: Self::State,
        whole: bool,
        line: &[u8],
        out: &mut [u8],
        waiting: usize,
    ) -> Given<Self::State>
        requires sound { limits.Sound state × (letters.over state ≡ false) }
        requires room { (length line.now ≤ 2048) × (waiting + MOST ≤ length out.old) }
        ensures { Gives (program_of letters) limits (handed (program_of letters) state whole line.now) out.old waiting 0 (given_at letters result 0) out.new };

    fn end(state: Self::State, out: &mut [u8], waiting: usize) -> Given<Self::State>
        requires { limits.Sound state × (waiting + MOST ≤ length out.old) }
        ensures { Gives (program_of letters) limits (letters.end state) out.old waiting 0 (given_at letters result 0) out.new };

    ghost most: { limits.most ≡ MOST };
}

fn hand_on<P: Program>(whole: bool, line: &[u8], out: &mut [u8], progress: &mut Progress<P::State>)
    requires sound { P.limits.Sound progress.old.state × (P.letters.over progress.old.state ≡ false) }
    requires room { (length line.now ≤ 2048) × (progress.old.waiting + P.MOST ≤ length out.old) }
    ensures { HandsOn (program_of P.letters) P.limits whole line.now out.old (place_of P.letters progress.old) progress.old.at (place_of P.letters progress.new) out.new }
{
    let given = P::hand_on(progress.state, whole, line, out, progress.waiting);
    progress.state = given.state;
    progress.had = 0;
    progress.waiting = given.waiting;
}

fn take_line<P: Program>(
    piece: &[u8],
    line: &mut [u8],
    out: &mut [u8],
    progress: &mut Progress<P::State>,
)
    requires buffers { Buffers (program_of P.letters) P.limits piece.now line.old out.old (place_of P.letters progress.old) }
    requires going { (P.letters.over progress.old.state ≡ false) × (progress.old.waiting + P.MOST ≤ length out.old) × (progress.old.at < length piece.now) }
    ensures { Goes (program_of P.letters) P.limits piece.now line.old out.old (place_of P.letters progress.old) (place_of P.letters progress.new) line.new out.new }
{
    let gathered = line::gather(piece, progress.at, line, progress.had);
    let n = gathered.length;
    progress.had = n;
    progress.at = gathered.next;
    match gathered.end {
        LineEnd::Open => {}
        LineEnd::Whole => hand_on::<P>(true, &line[..n], out, progress),
        LineEnd::Broken => hand_on::<P>(false, &line[..n], out, progress),
    }
}

// Goes on until the piece is used up or the output has less room than one line can print.
pub fn take_piece<P: Program>(
    piece: &[u8],
    line: &mut [u8],
    out: &mut [u8],
    begun: Progress<P::State>,
) -> Progress<P::State>
    requires { Buffers (program_of P.letters) P.limits piece.now line.old out.old (place_of P.letters begun) }
    ensures { Took (program_of P.letters) P.limits piece.now line.old out.old (place_of P.letters begun) (place_of P.letters result) line.new out.new }
{
    let mut progress = begun;
    while progress.at < piece.len() {
        if P::is_over(&progress.state) {
            progress.at = piece.len();
            return progress;
        }
        if out.len() - progress.waiting < P::MOST {
            return progress;
        }
        take_line::<P>(piece, line, out, &mut progress);
    }
    progress
}

// Bytes that no line feed has ended are a broken line.
fn rest<P: Program>(
    line: &[u8],
    out: &mut [u8],
    mut progress: Progress<P::State>,
) -> Progress<P::State>
    requires { P.limits.Sound progress.state × (length line.now ≡ 2048) × (progress.had ≤ 2048) × (progress.waiting + P.MOST ≤ length out.old) }
    ensures { Rests (program_of P.letters) P.limits line.now out.old (place_of P.letters progress) (place_of P.letters result) out.new × P.limits.Sound result.state }
{
    let had = progress.had;
    if P::is_over(&progress.state) || had == 0 {
        return progress;
    }
    hand_on::<P>(false, &line[..had], out, &mut progress);
    progress
}

// The input has no byte more.
pub fn end<P: Program>(
    line: &[u8],
    out: &mut [u8],
    progress: Progress<P::State>,
) -> Progress<P::State>
    requires { P.limits.Sound progress.state × (length line.now ≡ 2048) × (progress.had ≤ 2048) × (progress.waiting + P.MOST + P.MOST ≤ length out.old) }
    ensures { Ends (program_of P.letters) line.now out.old (place_of P.letters progress) (place_of P.letters result) out.new }
{
    let rested = rest::<P>(line, out, progress);
    let given = P::end(rested.state, out, rested.waiting);
    Progress {
        state: given.state,
        had: 0,
        waiting: given.waiting,
        at: rested.at,
    }
}
