// What is printed: the page, or a refusal.
ghost use Rattle.std.specs.Prelude.{◌+◌, ◌*◌, ◌≤◌, length};
ghost use Rattle.runs.specs.Record.{frame_limit};
ghost use Rattle.decimal.specs.Own.Put.{Put};
ghost use Rattle.reels.specs.Page;
ghost use Rattle.reels.specs.Page.{sum_line, sum_lines};
ghost use Rattle.reels.specs.Reel.{run_limit, reel_says};
ghost use Rattle.reels.specs.Limits.{SumWithin, SumsWithin, WithinLimits, most_printed};
ghost use Rattle.reel_page.specs.Own.Refusal.{refusal_in};

use decimal::print;
use reels::reel::{Reel, ReelPhase};

fn sum_line(out: &mut [u8], at: usize, number: usize, sum: i64) -> usize
    requires sum_within { SumWithin (run_limit * frame_limit) sum }
    requires sum_in_bounds { at + length (sum_line number sum) ≤ length out.old }
    ensures { Put at out.old (sum_line number sum) result out.new }
{
    let n = print::natural(out, at, number as u64);
    let m = print::bytes(out, n, b",");
    print::last_natural(out, m, sum as u64)
}

fn sum_lines(out: &mut [u8], at: usize, sums: &[i64]) -> usize
    requires sums_within { SumsWithin (run_limit * frame_limit) sums.now }
    requires sums_in_bounds { at + length (sum_lines 0 sums.now) ≤ length out.old }
    ensures { Put at out.old (sum_lines 0 sums.now) result out.new }
{
    let mut n = at;
    for (i, sum) in sums.iter().enumerate() {
        n = sum_line(out, n, i, *sum);
    }
    n
}

fn page(out: &mut [u8], at: usize, sums: &[i64], frames: usize) -> usize
    requires sums_within { SumsWithin (run_limit * frame_limit) sums.now }
    requires frames_in_bounds { at + length (Page.page sums.now frames) ≤ length out.old }
    ensures { Put at out.old (Page.page sums.now frames) result out.new }
{
    let n = sum_lines(out, at, sums);
    let m = print::bytes(out, n, b"frames,");
    print::last_natural(out, m, frames as u64)
}

// The line of a refusal; nothing in any other phase.
pub fn refusal(phase: ReelPhase, out: &mut [u8], at: usize) -> usize
    requires { at + 71 ≤ length out.old }
    ensures { Put at out.old (refusal_in phase) result out.new × (result ≤ at + 71) }
{
    if let ReelPhase::Refused(number, line, place) = phase {
        let n = print::refusal(out, at, number, line, place);
        return print::bytes(out, n, b"\n");
    }
    at
}

// What a reel says that has come to its end; before, nothing.
pub fn says(reel: Reel, out: &mut [u8], at: usize) -> usize
    requires { WithinLimits reel × (at + most_printed ≤ length out.old) }
    ensures { Put at out.old (reel_says reel.phase reel) result out.new }
{
    match reel.phase {
        ReelPhase::FirstRun | ReelPhase::Frames | ReelPhase::NextRun => at,
        ReelPhase::Whole => page(out, at, &reel.sums[..reel.width], reel.frames),
        ReelPhase::Refused(..) => refusal(reel.phase, out, at),
    }
}
