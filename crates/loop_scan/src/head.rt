//! A walk whose next point is looked at before it is given.

ghost use Rattle.std.specs.Prelude.{◌≡◌, ◌∷◌, [], length, true, IsTrue, ◌↔◌};
ghost use Rattle.std.specs.Ordering.{int_cmp};
ghost use Rattle.std.specs.Cmp.Lexicographic.{slice_cmp};
ghost use Rattle.az_ast.specs.Points.{IsIncreasing};
ghost use Rattle.loop_scan.specs.Nest.Walks.{to_come, IsWalk};
ghost use Rattle.loop_scan.specs.Nest.Merges.{ahead, passed, IsHead};

use crate::walk::Walk;
use std::cmp::Ordering;

/// The next point stands in the walk; a walk at its end isn't live.
#[derive(Debug, Drop)]
pub(crate) struct Head {
    pub(crate) walk: Walk,
    pub(crate) live: bool,
}

impl Head {
    pub(crate) fn new(walk: Walk) -> Head
        requires state { IsWalk walk }
        requires increasing { IsIncreasing (to_come walk) }
        ensures state { IsHead (length walk.levels.items) result }
        ensures points { ahead result ≡ to_come walk }
    {
        let mut walk = walk;
        let live = walk.advance();
        Head { walk, live }
    }

    pub(crate) fn point(&self) -> &[i128]
        ensures { result.now ≡ self.now.walk.point.items }
    {
        self.walk.point.as_slice()
    }

    pub(crate) fn compare(&self, point: &[i128]) -> Ordering
        ensures { result ≡ slice_cmp int_cmp self.now.walk.point.items point.now }
    {
        self.point().cmp(point)
    }

    /// Goes past the point, if it comes next.
    pub(crate) fn pass(&mut self, width: usize, point: &[i128])
        requires state { IsHead width self.old }
        ensures state { IsHead width self.new }
        ensures points { ahead self.new ≡ passed point.now (ahead self.old) }
    {
        if self.live && self.compare(point) == Ordering::Equal {
            self.live = self.walk.advance();
        }
    }
}
