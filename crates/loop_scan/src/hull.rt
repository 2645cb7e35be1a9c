//! The hull of the boxes of disjuncts, held against the limit on points.

ghost use Rattle.std.specs.Prelude.{◌≡◌, ℕ, ◌^◌, ◌+◌, ◌*◌, min, ◌<◌, ◌≤◌, ◌++◌, ◌∷◌, [], List, Option, length, map, All, IsTrue, ◌↔◌, IfOk, MatchBool};
ghost use Rattle.loop_scan.specs.Hulls.{size, points_in, range_of, IsSmall, IsLarge};
ghost use Rattle.loop_scan.specs.Nest.Answered.{ranges_of};
ghost use Rattle.loop_scan.specs.Nest.Indices.{HasSmallEnds};
ghost use Rattle.loop_scan.specs.Nest.Joined.{joined, IsHullOf, IsBoxOver};
ghost use Rattle.loop_scan.specs.declared.range.Range.{Range as Interval};

use crate::bound::{greater, lesser};
use crate::range::Range;
use crate::walks::is_full;
use std::alloc::{AllocError, Global};

/// The most points that a box may have for its members to be listed.
const MOST_POINTS: u64 = 1 << 22;

/// From the lesser to the greater number of both.
fn joined(left: &Range, right: &Range) -> Range
    ensures { result ≡ joined left.now right.now }
{
    Range {
        low: lesser(left.low, right.low),
        high: greater(right.high, left.high),
    }
}

/// Joins the ranges to those of the hull.
fn widen(hull: &mut [Range], ranges: &[Range])
    requires same { length ranges.now ≡ length hull.old }
    ensures { (k : ℕ) → k < length hull.old → range_of k hull.new ≡ joined (range_of k hull.old) (range_of k ranges.now) }
{
    'indices: for index in 0..hull.len() {
        hull[index] = joined(&hull[index], &ranges[index]);
    }
}

/// The hull with one more box, if that has a point.
fn with_box(
    alloc: Global,
    hull: Option<Vec<Range>>,
    one: &Option<Vec<Range>>,
    width: usize,
) -> Result<Option<Vec<Range>>, AllocError>
    requires one { IsBoxOver width (ranges_of one.now) }
    requires hull { IsBoxOver width (ranges_of hull) }
    ensures over { IfOk result (λ got. IsBoxOver width (ranges_of got)) }
    ensures joins { (boxes : List (Option (List Interval))) → IsHullOf width boxes (ranges_of hull)
        → IfOk result (λ got. IsHullOf width (boxes ++ ranges_of one.now ∷ []) (ranges_of got)) }
{
    let _ = width;
    let Some(ranges) = one else {
        return Ok(hull);
    };
    if !is_full(ranges.as_slice()) {
        return Ok(hull);
    }
    let Some(mut joint) = hull else {
        return Ok(Some(Vec::from_slice(alloc, ranges.as_slice())?));
    };
    widen(joint.as_mut_slice(), ranges.as_slice());
    Ok(Some(joint))
}

/// The hull of the boxes that have a point, if there are such.
fn hull_of(
    alloc: Global,
    boxes: &[Option<Vec<Range>>],
    width: usize,
) -> Result<Option<Vec<Range>>, AllocError>
    requires { All (IsBoxOver width) (map ranges_of boxes.now) }
    ensures over { IfOk result (λ got. IsBoxOver width (ranges_of got)) }
    ensures hull { IfOk result (λ got. IsHullOf width (map ranges_of boxes.now) (ranges_of got)) }
{
    let mut hull = None;
    'boxes: for one in boxes {
        hull = with_box(alloc, hull, one, width)?;
    }
    Ok(hull)
}

fn size_of(range: &Range) -> u64
    requires { HasSmallEnds range.now }
    ensures value { result ≡ size range.now }
    ensures small { result ≤ 2 ^ 41 }
{
    if range.high < range.low {
        return 0;
    }
    (range.high - range.low + 1) as u64
}

/// The product, or one more than the most where it is greater.
fn capped(points: u64, range: &Range) -> u64
    requires points { points ≤ 2 ^ 22 + 1 }
    requires ends { HasSmallEnds range.now }
    ensures { result ≡ min (points * size range.now) (2 ^ 22 + 1) }
{
    let product = points * size_of(range);
    if product <= MOST_POINTS {
        product
    } else {
        MOST_POINTS + 1
    }
}

/// Whether the box of the ranges has at most so many points.
fn has_few(hull: &[Range]) -> bool
    requires { All HasSmallEnds hull.now }
    ensures { IsTrue result ↔ (points_in hull.now ≤ 2 ^ 22) }
{
    let mut points: u64 = 1;
    'sizes: for range in hull {
        points = capped(points, range);
    }
    points <= MOST_POINTS
}

/// Whether the hull of the boxes has at most so many points.
pub(crate) fn is_small(
    alloc: Global,
    boxes: &[Option<Vec<Range>>],
    width: usize,
) -> Result<bool, AllocError>
    requires { All (IsBoxOver width) (map ranges_of boxes.now) }
    ensures { IfOk result (λ small. MatchBool small (IsSmall width (map ranges_of boxes.now)) (IsLarge width (map ranges_of boxes.now))) }
{
    match hull_of(alloc, boxes, width)? {
        Some(hull) => Ok(has_few(hull.as_slice())),
        None => Ok(true),
    }
}
