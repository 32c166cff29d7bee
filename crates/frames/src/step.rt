// One block forward: its frame, and what it holds for the next.
ghost use Rattle.std.specs.Prelude.{◌≡◌, ◌++◌, ◌+◌, ◌%◌, ◌^◌, pos, length, replicate};
ghost use Rattle.integers.specs.Places.{Within};
ghost use Rattle.tables.specs.Widths.{half_width};
ghost use Rattle.steps.specs.Limits.{reading_limit, folded_limit};
ghost use Rattle.width_tables.specs.Own.Parts.{TwoHalves, Room};
ghost use Rattle.steps.specs.Steps.{held, frame};

use fold::folding;
use slices::vectors;
use width_tables::parts::Tables;

// The halves of a frame, one behind the other.
fn write(top: &[i64], bottom: &[i64], frame: &mut [i32])
    requires frame_len { length frame.old ≡ length top.now + length bottom.now }
    requires top_len { (length top.now % 4 ≡ 0) × (length bottom.now % 4 ≡ 0) }
    requires within { Within (2 ^ 30) top.now }
    requires within_2 { Within (2 ^ 30) bottom.now }
    ensures { frame.new ≡ top.now ++ bottom.now }
{
    let half = top.len();
    vectors::narrow(top, &mut frame[..half]);
    vectors::narrow(bottom, &mut frame[half..]);
}

// What follows frame is room to work in.
pub fn step(
    t: &Tables,
    block: &[i32],
    held: &mut [i64],
    frame: &mut [i32],
    top: &mut [i64],
    bottom: &mut [i64],
    y: &mut [i64],
    z: &mut [i64],
)
    requires block_len { (length block.now ≡ t.now.width) × (length held.old ≡ half_width t.now.width) × (length frame.old ≡ t.now.width) }
    requires two_halves { TwoHalves t.now.width top.old bottom.old }
    requires room { Room t.now.width y.old z.old }
    requires within { Within folded_limit held.old }
    requires within_2 { Within reading_limit block.now }
    ensures { (held.new ≡ Rattle.steps.specs.Steps.held t.now.width block.now) × (frame.new ≡ Rattle.steps.specs.Steps.frame t.now.width held.old block.now) }
{
    folding::fold(t.width, t.tangents(), t.sines(), block, held, top, bottom);
    stages::stages::forward(t, top, bottom, y, z);
    write(top, bottom, frame);
}

// A block of zeros, which the finish takes after the last block.
pub fn zero_block() -> [i32; 128]
    ensures { result ≡ replicate 128 (pos 0) }
{
    [0; 128]
}
