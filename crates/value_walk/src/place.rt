//! The place of a point in a list of points in order.

ghost use Rattle.std.specs.Prelude.{◌≡◌, Some, slice_get, Contains, IsTrue, length};
ghost use Rattle.std.specs.List.Sorted.{IsBinarySearchResult, IsSearchInRange};
ghost use Rattle.std.specs.Ordering.{int_cmp};
ghost use Rattle.std.specs.Cmp.Lexicographic.{slice_cmp};
ghost use Rattle.az_ast.specs.Points.{IsIncreasing};

use az_lin::List;
use std::cmp::Ordering;

fn compare(point: &List<i128>, k: &[i128]) -> Ordering
    ensures { result ≡ slice_cmp int_cmp point.now k.now }
{
    point.as_slice().cmp(k)
}

fn searched(points: &[List<i128>], k: &[i128]) -> Result<usize, usize>
    ensures bound { IsSearchInRange result (length points.now) }
    ensures place { IsBinarySearchResult (λ point. slice_cmp int_cmp point k.now) points.now result }
{
    points.binary_search_by(|point| compare(point, k))
}

/// Whether it is this point.
pub(crate) fn is_point(point: &List<i128>, k: &[i128]) -> bool
    ensures { IsTrue result → point.now ≡ k.now }
{
    point.as_slice() == k
}

/// Where the point stands: where it is guessed, or found by halving.
#[tactic(auto, using(crate::proofs::PointPlaces::guessed_get))]
pub(crate) fn place_of(points: &[List<i128>], k: &[i128], guess: usize) -> usize
    requires increasing { IsIncreasing points.now }
    requires listed { Contains points.now k.now }
    ensures { slice_get points.now result ≡ Some k.now }
{
    if guess < points.len() && is_point(&points[guess], k) {
        return guess;
    }
    match searched(points, k) {
        Ok(place) => place,
        Err(_) => unreachable!(),
    }
}
