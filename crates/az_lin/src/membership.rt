//! Whether a conjunction or a domain holds a point.

ghost use Rattle.std.specs.Prelude.{◌≡◌, ◌≤◌, length, All, IsTrue, ◌↔◌};
ghost use Rattle.az_lin.specs.Affine.{Holds, HoldsSome, IsCoordinate, IsEntry};

use crate::{Conj, Domain};

impl Conj {
    /// Whether each row is at least 0 at `z`. The limits of `Row::value` hold.
    pub fn holds(&self, z: &[i128]) -> bool
        requires width { length z.now ≡ self.now.width }
        requires narrow { length z.now ≤ 64 }
        requires range { All IsCoordinate z.now }
        ensures { IsTrue result ↔ Holds self.now z.now }
    {
        self.rows().iter().all(|row| row.value(z) >= 0)
    }

    /// The same at numbers within ±(2^60 - 1), as parameters may be.
    pub fn holds_params(&self, params: &[i128]) -> bool
        requires width { length params.now ≡ self.now.width }
        requires narrow { length params.now ≤ 64 }
        requires range { All IsEntry params.now }
        ensures { IsTrue result ↔ Holds self.now params.now }
    {
        self.rows()
            .iter()
            .all(|row| row.value_at_params(params) >= 0)
    }
}

impl Domain {
    /// Whether some disjunct holds `z`. The limits of `Row::value` hold.
    pub fn holds(&self, z: &[i128]) -> bool
        requires width { length z.now ≡ self.now.width }
        requires narrow { length z.now ≤ 64 }
        requires range { All IsCoordinate z.now }
        ensures { IsTrue result ↔ HoldsSome self.now z.now }
    {
        self.disjuncts().iter().any(|conj| conj.holds(z))
    }

    /// The same at numbers within ±(2^60 - 1), as parameters may be.
    pub fn holds_params(&self, params: &[i128]) -> bool
        requires width { length params.now ≡ self.now.width }
        requires narrow { length params.now ≤ 64 }
        requires range { All IsEntry params.now }
        ensures { IsTrue result ↔ HoldsSome self.now params.now }
    {
        self.disjuncts()
            .iter()
            .any(|conj| conj.holds_params(params))
    }
}
