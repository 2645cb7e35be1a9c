//! The boxes of disjuncts, index by index.

ghost use Rattle.std.specs.Prelude.{◌≡◌, ◌≤◌, length, map, All, IfOk};
ghost use Rattle.std.specs.Option.{option_map};
ghost use Rattle.az_lin.specs.Affine.{IsOver};
ghost use Rattle.loop_scan.specs.Nest.Indices.{Bounds};
ghost use Rattle.loop_scan.specs.Nest.Joined.{IsBoxOver};
ghost use Rattle.loop_scan.specs.Nest.Answered.{BoxAnswers, BoxesAnswer, AllBound, ranges_of};

use crate::ScanFault;
use crate::index_range::index_range;
use crate::range::Range;
use az_lin::Conj;
use std::alloc::Global;

/// The ranges of the indices of a system, or none where it meets a contradiction.
fn box_of(alloc: Global, system: &Conj, width: usize) -> Result<Option<Vec<Range>>, ScanFault>
    requires over { IsOver width system.now }
    requires narrow { width ≤ 64 }
    ensures answer { BoxAnswers system.now result }
    ensures bounds { IfOk result (λ got. Bounds system.now (ranges_of got)) }
{
    let mut ranges = Vec::with_capacity(alloc, width)?;
    'indices: for column in 0..width {
        match index_range(alloc, system, column)? {
            Some(range) => ranges.push(range)?,
            None => return Ok(None),
        }
    }
    Ok(Some(ranges))
}

/// The boxes of the disjuncts, in order.
pub(crate) fn boxes(
    alloc: Global,
    disjuncts: &[Conj],
    width: usize,
) -> Result<Vec<Option<Vec<Range>>>, ScanFault>
    requires over { All (IsOver width) disjuncts.now }
    requires narrow { width ≤ 64 }
    ensures answer { BoxesAnswer disjuncts.now result }
    ensures bounds { IfOk result (λ got. AllBound disjuncts.now (map ranges_of got.items)) }
    ensures over { IfOk result (λ got. All (IsBoxOver width) (map ranges_of got.items)) }
{
    let mut boxes = Vec::with_capacity(alloc, disjuncts.len())?;
    'parts: for disjunct in disjuncts {
        boxes.push(box_of(alloc, disjunct, width)?)?;
    }
    Ok(boxes)
}
