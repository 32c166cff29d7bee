// The move that a block asks for.
ghost use Rattle.std.specs.Prelude.{◌≡◌, ◌*◌, ◌≤◌, ◌<◌, pos, nat_abs, length, ◌≤ℤ◌};
ghost use Rattle.integers.specs.Places.{Within};
ghost use Rattle.tables.specs.Widths.{half_width};
ghost use Rattle.steps.specs.Limits.{reading_limit};
ghost use Rattle.valves.specs.Record.{travel, greatest_move};
ghost use Rattle.valves.specs.Moves.{held_between, held_move};

use slices::vectors;
use valves::limits;

// The move before it is held: the block's total divided by the width, cut toward zero, and against it.
#[tactic(auto, using(crate::proofs::WantedLaws::asking))]
fn wanted(width: usize, block: &[i32]) -> i64
    requires width_nonzero { 0 < half_width width }
    requires block_len { length block.now ≡ width }
    requires within { Within reading_limit block.now }
    ensures { result ≡ Rattle.valves.specs.Moves.wanted width block.now }
{
    -(vectors::sum(block) / width as i64)
}

// By tests, and not by `clamp`: an edit of one end is then refused for its value.
#[tactic(auto, unfolding(valves::specs::Moves::held_between))]
fn held_between(low: i64, high: i64, x: i64) -> i64
    ensures { result ≡ held_between low high x }
{
    if x < low {
        low
    } else if high < x {
        high
    } else {
        x
    }
}

// Held within ±500, then so that the position stays in its travel.
fn held_move(position: i32, x: i64) -> i64
    requires { (pos 0 ≤ℤ position) × (position ≤ℤ pos travel) }
    ensures { (result ≡ held_move position x) × (nat_abs result ≤ greatest_move) }
{
    let most = i64::from(limits::GREATEST_MOVE);
    let from = i64::from(position);
    let above = i64::from(limits::TRAVEL) - from;
    held_between(-from, above, held_between(-most, most, x))
}

// The asked move of a block that has passed its questions.
pub fn asked(width: usize, position: i32, block: &[i32]) -> i32
    requires width_nonzero { 0 < half_width width }
    requires block_len { length block.now ≡ width }
    requires within { Within reading_limit block.now }
    requires pos_bound { (pos 0 ≤ℤ position) × (position ≤ℤ pos travel) }
    ensures { result ≡ held_move position (Rattle.valves.specs.Moves.wanted width block.now) }
{
    held_move(position, wanted(width, block)) as i32
}
