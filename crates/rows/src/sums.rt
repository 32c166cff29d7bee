// Every row of cosines or of secants times a list, by one product each. The sums are left in the order of the product.
ghost use Rattle.std.specs.Prelude.{◌≡◌, cond, ◌≤◌, length};
ghost use Rattle.integers.specs.Places.{places, Within};
ghost use Rattle.tables.specs.Widths.{half_width};
ghost use Rattle.steps.specs.Steps.{alternate};
ghost use Rattle.width_tables.specs.Orders.{place_in, sign_in};
ghost use Rattle.width_tables.specs.Filled.{product_room};
ghost use Rattle.rows.specs.Sums.{CosineRows, SecantRows};

use crate::order;
use products::whole;
use width_tables::parts::Tables;

// The signs of the cosines, plain or alternated.
fn signs_in<'a>(alternated: bool, t: &Tables<'a>) -> &'a [i64]
    ensures { result.now ≡ places (half_width t.now.width) (λ e. cond alternated (alternate (place_in t.now.width e) (sign_in t.now.width e)) (sign_in t.now.width e)) }
{
    if alternated {
        return t.alternated_signs_in();
    }
    t.signs_in()
}

// Every row sum of the cosine matrix with x, or with d·x.
pub fn cosine_sums(alternated: bool, t: &Tables, x: &[i64], room: &mut [i64])
    requires x_len { (length x.now ≡ half_width t.now.width) × (product_room t.now.width ≤ length room.old) }
    requires within { Within 268000000 x.now }
    ensures { CosineRows t.now.width (cond alternated (Rattle.rows.specs.Sums.alternated x.now) x.now) room.new }
{
    let half = t.half();
    order::in_order(t.places_in(), signs_in(alternated, t), x, &mut room[..half]);
    whole::product(t.cosine_leaves(), room, half);
}

// Every row sum of the secants with x.
pub fn secant_sums(t: &Tables, x: &[i64], room: &mut [i64])
    requires x_len { (length x.now ≡ half_width t.now.width) × (product_room t.now.width ≤ length room.old) }
    requires within { Within 6000000 x.now }
    ensures { SecantRows t.now.width x.now room.new }
{
    let half = t.half();
    order::secant_in(x, &mut room[..half]);
    whole::product(t.secant_leaves(), room, half);
}
