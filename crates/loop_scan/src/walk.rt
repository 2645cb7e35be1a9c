//! The walk through a nest of levels, from point to point.

ghost use Rattle.std.specs.Prelude.{◌≡◌, ◌+◌, ◌<◌, ◌≤◌, [], ◌∷◌, length, take, drop, ◌++◌, slice_index_or, false, ◌≤ℤ◌, MatchBool, IfOk};
ghost use Rattle.std.specs.List.{All};
ghost use Rattle.az_lin.specs.Affine.{IsCoordinate};
ghost use Rattle.loop_scan.specs.Nest.Levels.{AreLevels};
ghost use Rattle.loop_scan.specs.Hulls.{no_range};
ghost use Rattle.loop_scan.specs.Nest.Walks.{walk, steps, points_left, work_left, to_come, IsWalk, IsSameNest};

use crate::level::Level;
use crate::range::Range;
use std::alloc::{AllocError, Global};

/// The first `depth` indices are under way: each has its coordinate in `point`, and the numbers
/// still before it in `ranges`. A fresh walk hasn't begun.
#[derive(Debug, Drop)]
pub(crate) struct Walk {
    pub(crate) levels: Vec<Level>,
    pub(crate) point: Vec<i128>,
    pub(crate) ranges: Vec<Range>,
    pub(crate) depth: usize,
    pub(crate) fresh: bool,
}

const NO_RANGE: Range = Range { low: 1, high: 0 };

impl Walk {
    pub(crate) fn new(alloc: Global, levels: Vec<Level>) -> Result<Walk, AllocError>
        requires levels { AreLevels 0 levels.items }
        requires narrow { length levels.items ≤ 64 }
        ensures state { IfOk result IsWalk }
        ensures levels { IfOk result (λ it. it.levels ≡ levels) }
        ensures all { IfOk result (λ it. to_come it ≡ walk levels.items []) }
    {
        let point = vec![in alloc; 0; levels.len()]?;
        let ranges = vec![in alloc; NO_RANGE; levels.len()]?;
        Ok(Walk {
            levels,
            point,
            ranges,
            depth: 0,
            fresh: true,
        })
    }

    /// Begins with the index of the next level, after the coordinates of the earlier ones.
    fn enter(&mut self)
        requires state { IsWalk self.old }
        requires begun { self.old.fresh ≡ false }
        requires more { self.old.depth < length self.old.levels.items }
        ensures state { IsWalk self.new }
        ensures kept { self.new.levels ≡ self.old.levels }
        ensures fresh { self.new.fresh ≡ self.old.fresh }
        ensures left { points_left self.new ≡ walk (drop self.old.depth self.old.levels.items) (take self.old.depth self.old.point.items) ++ points_left self.old }
        ensures work { work_left self.new ≡ steps (drop self.old.depth self.old.levels.items) (take self.old.depth self.old.point.items) + work_left self.old }
    {
        let depth = self.depth;
        self.ranges[depth] = self.levels[depth].range_at(&self.point[..depth]);
        self.depth = depth + 1;
    }

    /// Gives the index of this level, the innermost under way, its next number.
    fn take(&mut self, level: usize)
        requires state { IsWalk self.old }
        requires innermost { self.old.depth ≡ level + 1 }
        requires some { (slice_index_or self.old.ranges.items level no_range).low ≤ℤ (slice_index_or self.old.ranges.items level no_range).high }
        ensures state { IsWalk self.new }
        ensures kept { IsSameNest self.old self.new }
        ensures left { points_left self.old ≡ walk (drop self.new.depth self.new.levels.items) (take self.new.depth self.new.point.items) ++ points_left self.new }
        ensures work { work_left self.old ≡ 1 + steps (drop self.new.depth self.new.levels.items) (take self.new.depth self.new.point.items) + work_left self.new }
    {
        let Range { low, high } = self.ranges[level];
        self.point[level] = low;
        self.ranges[level] = Range { low: low + 1, high };
    }

    /// One turn of the innermost index under way: it gets its next number, or it is through.
    /// Whether the point is whole then.
    fn turn(&mut self) -> bool
        requires state { IsWalk self.old }
        requires begun { self.old.fresh ≡ false }
        requires under_way { 0 < self.old.depth }
        ensures state { IsWalk self.new }
        ensures kept { self.new.levels ≡ self.old.levels }
        ensures fresh { self.new.fresh ≡ self.old.fresh }
        ensures turn { MatchBool result (points_left self.old ≡ self.new.point.items ∷ points_left self.new)
            ((points_left self.new ≡ points_left self.old) × (work_left self.new < work_left self.old)) }
    {
        let level = self.depth - 1;
        let range = self.ranges[level];
        if range.high < range.low {
            self.depth = level;
            return false;
        }
        self.take(level);
        if self.depth == self.levels.len() {
            return true;
        }
        self.enter();
        false
    }

    /// Goes to the next point, if there is one.
    pub(crate) fn advance(&mut self) -> bool
        requires state { IsWalk self.old }
        ensures state { IsWalk self.new }
        ensures kept { self.new.levels ≡ self.old.levels }
        ensures point { MatchBool result (to_come self.old ≡ self.new.point.items ∷ to_come self.new)
            ((to_come self.old ≡ []) × (to_come self.new ≡ [])) }
    {
        if self.fresh {
            self.fresh = false;
            if self.levels.is_empty() {
                return true;
            }
            self.enter();
        }
        while self.depth > 0 {
            if self.turn() {
                return true;
            }
        }
        false
    }
}
