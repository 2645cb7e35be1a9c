//! The range of one index, by the rows that the elimination of all other columns leaves.

ghost use Rattle.std.specs.Prelude.{◌≡◌, ◌<◌, ◌≤◌, ◌++◌, List, ℤ, length, map, All, IsTrue, ◌↔◌, IfOk, MatchOption};
ghost use Rattle.std.specs.List.{flat_map};
ghost use Rattle.std.specs.Option.{option_to_list};
ghost use Rattle.az_lin.specs.Affine.{IsCoordinate, Holds};
ghost use Rattle.az_lin.specs.Substitution.{Point};
ghost use Rattle.farkas_find.specs.Remaining.{HaveColumns};
ghost use Rattle.farkas_find.specs.Rows.{affine_of, HasWideRow};
ghost use Rattle.loop_scan.specs.Boxes.{lower_bound, upper_bound, IsRangeOf};
ghost use Rattle.loop_scan.specs.Nest.Indices.{IsGreatestOf, IsLeastOf, IndexAnswers, BoundsIndex};

use crate::ScanFault;
use crate::range::Range;
use az_lin::{Conj, Limit};
use farkas_find::{FindFault, Left, WideRow, range_rows};
use std::alloc::Global;

/// The greatest magnitude of a coordinate.
const MOST_COORDINATE: i128 = (1 << 40) - 1;

pub(crate) fn is_coordinate(number: i128) -> bool
    ensures { IsTrue result ↔ IsCoordinate number }
{
    -MOST_COORDINATE <= number && number <= MOST_COORDINATE
}

/// The greatest lower and the least upper bound, as far as there are such.
#[derive(Debug, Clone, Copy)]
struct BestBounds {
    low: Option<i128>,
    high: Option<i128>,
}

/// The lower bound that a row gives, if it gives one.
fn lower_of(column: usize, row: &WideRow) -> Option<i128>
    requires inside { column < length row.now.coefs }
    requires range { HasWideRow row.now }
    ensures { option_to_list result ≡ lower_bound column (affine_of row.now) }
{
    let coef = row.coefs.as_slice()[column];
    if coef <= 0 {
        return None;
    }
    Some(-row.konst.div_euclid(coef))
}

/// The upper bound that a row gives, if it gives one.
fn upper_of(column: usize, row: &WideRow) -> Option<i128>
    requires inside { column < length row.now.coefs }
    requires range { HasWideRow row.now }
    ensures { option_to_list result ≡ upper_bound column (affine_of row.now) }
{
    let coef = row.coefs.as_slice()[column];
    if coef >= 0 {
        return None;
    }
    Some(row.konst.div_euclid(-coef))
}

/// The greatest lower bound, with one more.
fn raised(low: Option<i128>, bound: Option<i128>) -> Option<i128>
    ensures { (bounds : List ℤ) → IsGreatestOf bounds low → IsGreatestOf (bounds ++ option_to_list bound) result }
{
    let Some(bound) = bound else {
        return low;
    };
    let Some(low) = low else {
        return Some(bound);
    };
    if bound <= low { Some(low) } else { Some(bound) }
}

/// The least upper bound, with one more.
fn lowered(high: Option<i128>, bound: Option<i128>) -> Option<i128>
    ensures { (bounds : List ℤ) → IsLeastOf bounds high → IsLeastOf (bounds ++ option_to_list bound) result }
{
    let Some(bound) = bound else {
        return high;
    };
    let Some(high) = high else {
        return Some(bound);
    };
    if high <= bound {
        Some(high)
    } else {
        Some(bound)
    }
}

/// The bounds that rows of one column give.
fn best_bounds(rows: &[WideRow], column: usize, width: usize) -> BestBounds
    requires inside { column < width }
    requires widths { HaveColumns width rows.now }
    requires range { All HasWideRow rows.now }
    ensures low { IsGreatestOf (flat_map (lower_bound column) (map affine_of rows.now)) result.low }
    ensures high { IsLeastOf (flat_map (upper_bound column) (map affine_of rows.now)) result.high }
{
    let mut low = None;
    let mut high = None;
    'rows: for row in rows {
        low = raised(low, lower_of(column, row));
        high = lowered(high, upper_of(column, row));
    }
    BestBounds { low, high }
}

/// The range between the bounds, if both are coordinates.
fn range_of(rows: &[WideRow], column: usize, width: usize) -> Option<Range>
    requires inside { column < width }
    requires widths { HaveColumns width rows.now }
    requires range { All HasWideRow rows.now }
    ensures { MatchOption result ((range : Range) → IsRangeOf column (map affine_of rows.now) range → ⊥)
        (IsRangeOf column (map affine_of rows.now)) }
{
    let best = best_bounds(rows, column, width);
    let Some(low) = best.low else {
        return None;
    };
    let Some(high) = best.high else {
        return None;
    };
    if is_coordinate(low) && is_coordinate(high) {
        Some(Range { low, high })
    } else {
        None
    }
}

/// The range of an index of the system, or none where the system has no point.
pub(crate) fn index_range(
    alloc: Global,
    system: &Conj,
    column: usize,
) -> Result<Option<Range>, ScanFault>
    requires inside { column < system.now.width }
    requires narrow { system.now.width ≤ 64 }
    ensures answer { IndexAnswers system.now column result }
    ensures sound { (z : Point) → length z ≡ system.now.width → Holds system.now z → IfOk result (BoundsIndex z column) }
{
    match range_rows(alloc, system, column as u32) {
        Ok(Left::Contradiction) => Ok(None),
        Ok(Left::Rows(rows)) => match range_of(rows.as_slice(), column, system.width()) {
            Some(range) => Ok(Some(range)),
            None => Err(ScanFault::Limit(Limit::Coordinate)),
        },
        Err(FindFault::Overflow(_)) => Err(ScanFault::Overflow),
        Err(FindFault::Limit(limit)) => Err(ScanFault::Limit(limit)),
        Err(FindFault::Memory) => Err(ScanFault::Memory),
    }
}
