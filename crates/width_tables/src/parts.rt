// A width of a run with what its steps take, each part by its name.
ghost use Rattle.std.specs.Prelude.{◌≡◌, ◌<◌, pos, ◌*ℤ◌};
ghost use Rattle.std.proofs.Props.{props};
ghost use Rattle.integers.specs.Places.{places};
ghost use Rattle.tables.specs.Widths.{half_width, scale};
ghost use Rattle.steps.specs.Steps.{alternate};
ghost use Rattle.products.specs.Own.Whole.{LeafLists};
ghost use Rattle.products.proofs.Alike.{leaf-lists-alike};
ghost use Rattle.width_tables.specs.Orders.{place_in, sign_in, place_out};
ghost use Rattle.width_tables.specs.Filled.{Filled, cosine_list, secant_list};
ghost use Rattle.width_tables.specs.Own.Parts.{Tangents, Sines};

// The numbers are those that `fill` has filled.
#[derive(Clone, Copy)]
pub struct Tables<'a> {
    pub width: usize,
    pub numbers: &'a [i64],
    pub ghost known: { 0 < half_width width },
    pub ghost filled: { Filled width numbers.now } by { Prim.hlevel (leaf-lists-alike, props) },
}

impl<'a> Tables<'a> {
    // M.
    pub fn half(&self) -> usize
        ensures { result ≡ half_width self.now.width }
    {
        self.width / 2
    }

    // −t(m).
    pub fn tangents(&self) -> &'a [i64]
        ensures { Tangents self.now.width result.now }
    {
        let half = self.half();
        &self.numbers[..half]
    }

    // s(m).
    pub fn sines(&self) -> &'a [i64]
        ensures { Sines self.now.width result.now }
    {
        let half = self.half();
        &self.numbers[half..self.width]
    }

    // The order of the cosines.
    pub fn places_in(&self) -> &'a [i64]
        ensures { result.now ≡ places (half_width self.now.width) (λ e. pos (place_in self.now.width e)) }
    {
        let half = self.half();
        &self.numbers[2 * half..3 * half]
    }

    // Their signs in that order.
    pub fn signs_in(&self) -> &'a [i64]
        ensures { result.now ≡ places (half_width self.now.width) (sign_in self.now.width) }
    {
        let half = self.half();
        &self.numbers[3 * half..4 * half]
    }

    // The signs times d(place).
    pub fn alternated_signs_in(&self) -> &'a [i64]
        ensures { result.now ≡ places (half_width self.now.width) (λ e. alternate (place_in self.now.width e) (sign_in self.now.width e)) }
    {
        let half = self.half();
        &self.numbers[4 * half..5 * half]
    }

    // The way back.
    pub fn places_out(&self) -> &'a [i64]
        ensures { result.now ≡ places (half_width self.now.width) (λ m. pos (place_out self.now.width m)) }
    {
        let half = self.half();
        &self.numbers[5 * half..6 * half]
    }

    // Its signs, 8/√M times.
    pub fn signs_out(&self) -> &'a [i64]
        ensures { result.now ≡ places (half_width self.now.width) (λ m. pos (scale self.now.width) *ℤ sign_in self.now.width (place_out self.now.width m)) }
    {
        let half = self.half();
        &self.numbers[6 * half..7 * half]
    }

    // The leaf lists of the cosines.
    pub fn cosine_leaves(&self) -> &'a [i64]
        ensures { LeafLists (half_width self.now.width) (cosine_list self.now.width) result.now }
    {
        let from = 7 * self.half();
        let middle = (from + self.numbers.len()) / 2;
        &self.numbers[from..middle]
    }

    // The leaf lists of the secants.
    pub fn secant_leaves(&self) -> &'a [i64]
        ensures { LeafLists (half_width self.now.width) (secant_list self.now.width) result.now }
    {
        let middle = (7 * self.half() + self.numbers.len()) / 2;
        &self.numbers[middle..]
    }
}
