//! A level of a nest: the range of one index, and the bounds that the earlier indices give.

ghost use Rattle.std.specs.Prelude.{◌≡◌, ◌≤◌, length};
ghost use Rattle.std.specs.List.{All};
ghost use Rattle.az_lin.specs.Affine.{IsCoordinate};
ghost use Rattle.loop_scan.specs.Nest.Levels.{IsLevel, range_at};

use crate::bound::Bound;
use crate::range::Range;

#[derive(Debug, Drop)]
pub(crate) struct Level {
    pub(crate) range: Range,
    pub(crate) bounds: Vec<Bound>,
}

impl Level {
    /// The numbers that the index runs through after these coordinates of the earlier indices.
    pub(crate) fn range_at(&self, before: &[i128]) -> Range
        requires level { IsLevel (length before.now) self.now }
        requires narrow { length before.now ≤ 64 }
        requires coordinates { All IsCoordinate before.now }
        ensures { result ≡ range_at self.now before.now }
    {
        let mut range = self.range;
        'bounds: for bound in &self.bounds {
            range = bound.narrowed(before, &range);
        }
        range
    }

    /// Whether a bound has these coefficients and a constant that isn't greater. The last
    /// coefficient that isn't 0 is that of the level's own column.
    pub(crate) fn implies(&self, coefs: &[i128], konst: i128) -> bool {
        self.bounds.iter().any(|bound| bound.implies(coefs, konst))
    }
}
