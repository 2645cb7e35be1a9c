//! Whether a domain holds a point.

ghost use Rattle.std.specs.Prelude.{◌≡◌, ◌≤◌, length, All, IsTrue, ◌↔◌};
ghost use Rattle.az_lin.specs.Affine.{HoldsSome, IsCoordinate};

use az_lin::Domain;

/// Whether some disjunct is at least 0 in each row at `z`. The limits of `Row::value` hold.
pub fn contains(d: &Domain, z: &[i128]) -> bool
    requires width { length z.now ≡ d.now.width }
    requires narrow { length z.now ≤ 64 }
    requires range { All IsCoordinate z.now }
    ensures { IsTrue result ↔ HoldsSome d.now z.now }
{
    d.holds(z)
}
