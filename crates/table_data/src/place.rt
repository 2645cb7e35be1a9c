//! The place of a point among points in order.

ghost use Rattle.std.specs.Prelude.{◌≡◌, ◌<◌, Some, slice_get, Contains, length, MatchOption, IsTrue};
ghost use Rattle.std.specs.Option.{option_copied};
ghost use Rattle.std.specs.List.Sorted.{IsBinarySearchResult, IsSearchInRange};
ghost use Rattle.std.specs.Ordering.{int_cmp};
ghost use Rattle.std.specs.Cmp.Lexicographic.{slice_cmp};
ghost use Rattle.az_ast.specs.Points.{IsIncreasing};

use az_lin::List;
use std::cmp::Ordering;

fn compare(other: &List<i128>, point: &[i128]) -> Ordering
    ensures { result ≡ slice_cmp int_cmp other.now point.now }
{
    other.as_slice().cmp(point)
}

fn searched(points: &[List<i128>], point: &[i128]) -> Result<usize, usize>
    ensures bound { IsSearchInRange result (length points.now) }
    ensures place { IsBinarySearchResult (λ other. slice_cmp int_cmp other point.now) points.now result }
{
    points.binary_search_by(|other| compare(other, point))
}

fn point_at(points: &[List<i128>], place: usize) -> Option<&List<i128>>
    ensures { option_copied result ≡ slice_get points.now place }
{
    points.get(place)
}

/// Whether the point stands at this place.
fn stands_at(points: &[List<i128>], point: &[i128], place: usize) -> bool
    ensures { IsTrue result → (place < length points.now) × (slice_get points.now place ≡ Some point.now) }
{
    match point_at(points, place) {
        Some(other) => compare(other, point).is_eq(),
        None => false,
    }
}

/// Where the point stands if the points are all those between the first and the last in each index;
/// else a number that says nothing.
fn box_place(points: &[List<i128>], point: &[i128]) -> usize {
    let (Some(first), Some(last)) = (points.first(), points.last()) else {
        return 0;
    };
    let mut place: i128 = 0;
    'indices: for ((index, low), high) in point.iter().zip(first.as_slice()).zip(last.as_slice()) {
        let size = high.wrapping_sub(*low).wrapping_add(1);
        place = place
            .wrapping_mul(size)
            .wrapping_add(index.wrapping_sub(*low));
    }
    usize::try_from(place).unwrap_or(0)
}

/// Where the point stands. The guess is tried first, then its place in a box, and then it is
/// searched by halving.
pub(crate) fn place_of(points: &[List<i128>], point: &[i128], guess: usize) -> Option<usize>
    requires { IsIncreasing points.now }
    ensures { MatchOption result (Contains points.now point.now → ⊥) (λ place. (place < length points.now) × (slice_get points.now place ≡ Some point.now)) }
{
    if stands_at(points, point, guess) {
        return Some(guess);
    }
    let place = box_place(points, point);
    if stands_at(points, point, place) {
        return Some(place);
    }
    match searched(points, point) {
        Ok(place) => Some(place),
        Err(_) => None,
    }
}
