// Angles in parts of a right angle.
ghost use Rattle.std.specs.Prelude.{◌≡◌, ◌%◌, ◌<◌, ◌≤◌, ◌^◌, nat_abs};
ghost use Rattle.tables.specs.Angles.{half_turn, reflected, below_zero, signed};

// An angle of the first quadrant, and whether the cosine is below zero.
#[derive(Clone, Copy)]
pub struct QuadrantAngle {
    pub angle: u16,
    pub minus: bool,
}

// The angle less its whole turns: while there is one it is subtracted, and the function calls itself, a rule of the project.
pub fn within_turn(angle: u16, turn: u16) -> u16
    requires { 0 < turn }
    ensures { result ≡ angle % turn }
{
    if angle < turn {
        angle
    } else {
        within_turn(angle - turn, turn)
    }
}

fn half_turn(angle: u16, quarter: u16) -> u16
    requires { (0 < quarter) × (quarter ≤ 256) }
    ensures { result ≡ half_turn quarter angle }
{
    let part = within_turn(angle, 4 * quarter);
    if part <= 2 * quarter {
        part
    } else {
        4 * quarter - part
    }
}

// The angle brought into the first quadrant.
pub fn first_quadrant(angle: u16, quarter: u16) -> QuadrantAngle
    requires { (0 < quarter) × (quarter ≤ 256) }
    ensures { (result.angle ≡ reflected quarter angle) × (result.minus ≡ below_zero quarter angle) }
{
    let half = half_turn(angle, quarter);
    if half <= quarter {
        QuadrantAngle {
            angle: half,
            minus: false,
        }
    } else {
        QuadrantAngle {
            angle: 2 * quarter - half,
            minus: true,
        }
    }
}

// A table number with the sign of its cosine.
#[tactic(auto, unfolding(tables::specs::Angles::signed))]
pub fn signed(minus: bool, x: i64) -> i64
    requires { nat_abs x < 2 ^ 63 }
    ensures { result ≡ Rattle.tables.specs.Angles.signed minus x }
{
    if minus { -x } else { x }
}
