// The five stages on the two halves of a frame, each with its way back. y and z are room for a product each.
ghost use Rattle.std.specs.Prelude.{cond, ◌≡◌, ◌^◌, ◌≤◌, length};
ghost use Rattle.integers.specs.Places.{Within};
ghost use Rattle.width_tables.specs.Filled.{product_room};
ghost use Rattle.steps.specs.Limits.{folded_limit, coefficient_limit};
ghost use Rattle.steps.specs.Steps.{stage1, stage2, stage3, stage4, stage5, unstage1, unstage2, unstage3, unstage4, unstage5};
ghost use Rattle.width_tables.specs.Own.Parts.{TwoHalves, Room};
ghost use Rattle.stages.specs.Own.Stages.{top4, bottom5, untop2, unbottom1};

use rows::sums;
use width_tables::parts::Tables;

// Stage 1: adds top and the rounded sums of 2·C·d·top/√M to bottom.
fn first(undo: bool, t: &Tables, top: &[i64], bottom: &mut [i64], y: &mut [i64])
    requires two_halves { TwoHalves t.now.width top.now bottom.old }
    requires width_in_bounds { product_room t.now.width ≤ length y.old }
    requires within { Within 268000000 top.now }
    requires within_2 { Within (2 ^ 60) bottom.old }
    ensures { bottom.new ≡ cond undo (unstage1 t.now.width top.now bottom.old) (stage1 t.now.width top.now bottom.old) }
{
    let half = t.half();
    sums::cosine_sums(true, t, top, y);
    lifts::lifts::first(undo, t.places_out(), t.signs_out(), &y[..half], top, bottom);
}

// Stage 2: replaces top by −d·top, and adds the rounded sums of C·bottom/√M.
fn second(undo: bool, t: &Tables, top: &mut [i64], bottom: &[i64], y: &mut [i64])
    requires two_halves { TwoHalves t.now.width top.old bottom.now }
    requires width_in_bounds { product_room t.now.width ≤ length y.old }
    requires within { Within 268000000 bottom.now }
    requires within_2 { Within (2 ^ 60) top.old }
    ensures { top.new ≡ cond undo (unstage2 t.now.width top.old bottom.now) (stage2 t.now.width top.old bottom.now) }
{
    let half = t.half();
    sums::cosine_sums(false, t, bottom, y);
    lifts::lifts::second(undo, t.places_out(), t.signs_out(), &y[..half], top);
}

// Stage 3: subtracts the secant sums and the cosine sums from bottom and adds −t·top, as one amount that is rounded once.
fn third(undo: bool, t: &Tables, top: &[i64], bottom: &mut [i64], y: &mut [i64], z: &mut [i64])
    requires two_halves { TwoHalves t.now.width top.now bottom.old }
    requires room { Room t.now.width y.old z.old }
    requires within { Within 4000000 top.now }
    requires within_2 { Within (2 ^ 60) bottom.old }
    ensures { bottom.new ≡ cond undo (unstage3 t.now.width top.now bottom.old) (stage3 t.now.width top.now bottom.old) }
{
    let half = t.half();
    sums::secant_sums(t, top, z);
    sums::cosine_sums(false, t, top, y);
    lifts::lifts::third(
        undo,
        t.tangents(),
        top,
        &z[..half],
        t.places_out(),
        t.signs_out(),
        &y[..half],
        bottom,
    );
}

// Stage 4: adds round(s·bottom) to top; bottom is read from its end.
fn fourth(undo: bool, t: &Tables, top: &mut [i64], bottom: &[i64])
    requires two_halves { TwoHalves t.now.width top.old bottom.now }
    requires within { Within (2 ^ 34) bottom.now }
    requires within_2 { Within (2 ^ 60) top.old }
    ensures { top.new ≡ cond undo (unstage4 t.now.width top.old bottom.now) (stage4 t.now.width top.old bottom.now) }
{
    lifts::lifts::fourth(undo, t.sines(), bottom, top);
}

// Stage 5: adds round(−t·top) to bottom, from the end of bottom on.
fn fifth(undo: bool, t: &Tables, top: &[i64], bottom: &mut [i64])
    requires two_halves { TwoHalves t.now.width top.now bottom.old }
    requires within { Within (2 ^ 34) top.now }
    requires within_2 { Within (2 ^ 60) bottom.old }
    ensures { bottom.new ≡ cond undo (unstage5 t.now.width top.now bottom.old) (stage5 t.now.width top.now bottom.old) }
{
    lifts::lifts::fifth(undo, t.tangents(), top, bottom);
}

// All five stages.
pub fn forward(t: &Tables, top: &mut [i64], bottom: &mut [i64], y: &mut [i64], z: &mut [i64])
    requires two_halves { TwoHalves t.now.width top.old bottom.old }
    requires room { Room t.now.width y.old z.old }
    requires within { Within folded_limit top.old }
    requires within_2 { Within folded_limit bottom.old }
    ensures { (top.new ≡ top4 t.now.width top.old bottom.old) × (bottom.new ≡ bottom5 t.now.width top.old bottom.old) }
{
    first(false, t, top, bottom, y);
    second(false, t, top, bottom, y);
    third(false, t, top, bottom, y, z);
    fourth(false, t, top, bottom);
    fifth(false, t, top, bottom);
}

// All five undone.
pub fn backward(t: &Tables, top: &mut [i64], bottom: &mut [i64], y: &mut [i64], z: &mut [i64])
    requires two_halves { TwoHalves t.now.width top.old bottom.old }
    requires room { Room t.now.width y.old z.old }
    requires within { Within coefficient_limit top.old }
    requires within_2 { Within coefficient_limit bottom.old }
    ensures { (top.new ≡ untop2 t.now.width top.old bottom.old) × (bottom.new ≡ unbottom1 t.now.width top.old bottom.old) }
{
    fifth(true, t, top, bottom);
    fourth(true, t, top, bottom);
    third(true, t, top, bottom, y, z);
    second(true, t, top, bottom, y);
    first(true, t, top, bottom, y);
}
