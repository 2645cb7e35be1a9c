//! Back-substitution: the point that is found where no row refutes a system.

ghost use Rattle.std.specs.Prelude.{◌≡◌, ◌<◌, ◌↔◌, ◌<ℤ◌, pos, length, All, IsTrue, SomeIff, IfSome, IfOk, IfErr, option_map};
ghost use Rattle.az_lin.specs.RationalPoint.{IsWideAt, Satisfies};
ghost use Rattle.farkas_find.specs.Point.{EndsOpen, rounded_system};
ghost use Rattle.az_lin.specs.Affine.{HasWidth};
ghost use Rattle.farkas_find.specs.Tidying.{rounded};
ghost use Rattle.farkas_find.specs.BackSubstitution.{point_in, placed_by, placed, cleared, origin, point_of, factor_at, IsInside, IsDenominator, CanBeTaken, ScaledWide, PlacedWide, PointWide, IsFoundWide};
ghost use Rattle.farkas_find.specs.declared.fault.FindFault.TheVariants.{Memory};
ghost use Rattle.az_lin.specs.declared.fault.LinFault.TheVariants.{Memory as OutOfMemory};

use crate::FindFault;
use crate::bound::{Bound, bounds_at, factor_at, number_at, taken};
use crate::fault::of_memory;
use crate::found::{Found, multiplied, reduced};
use crate::rounding::rounded;
use crate::trail::Eliminated;
use crate::value::value_over;
use az_lin::{ExactRow, LinFault, List, RatPoint, Row, wide_product};
use std::alloc::{AllocError, Global};

/// Puts the number that a bound gives into a column, or `None` exactly where a number leaves
/// ±(2^127 - 1).
#[tactic(auto, unfolding(crate::specs::BackSubstitution::placed_by, crate::specs::BackSubstitution::scaled))]
fn placed_by(found: Found, column: usize, bound: &Option<Bound>) -> Option<Found>
    requires inside { column < length found.nums.items }
    requires denominator { IsDenominator found.den }
    requires range { IfSome bound.now CanBeTaken }
    ensures exact { SomeIff (option_map point_in result) (ScaledWide (factor_at bound.now) (point_in found))
        (placed_by column bound.now (point_in found)) }
    ensures denominator { IfSome result (λ got. IsDenominator got.den) }
    ensures width { IfSome result (λ got. length got.nums.items ≡ length found.nums.items) }
{
    let factor = factor_at(bound);
    let Some(den) = wide_product(factor, found.den) else {
        return None;
    };
    let Some(mut nums) = multiplied(found.nums, &factor) else {
        return None;
    };
    nums[column] = number_at(bound);
    Some(reduced(Found { nums, den }))
}

/// Gives a column its number, where those of the later stages are found. `None` exactly where a
/// number leaves ±(2^127 - 1).
#[tactic(auto, unfolding(crate::specs::BackSubstitution::placed))]
fn placed(alloc: Global, gone: &Eliminated, found: Found) -> Result<Option<Found>, AllocError>
    requires inside { IsInside (length found.nums.items) gone.now }
    requires denominator { IsDenominator found.den }
    ensures exact { IfOk result (λ got. SomeIff (option_map point_in got)
        (PlacedWide gone.now (cleared gone.now.column (point_in found))) (placed gone.now (point_in found))) }
    ensures denominator { IfOk result (λ got. IfSome got (λ next. IsDenominator next.den)) }
    ensures width { IfOk result (λ got. IfSome got (λ next. length next.nums.items ≡ length found.nums.items)) }
{
    let Found { mut nums, den } = found;
    nums[gone.column] = 0;
    let cleared = Found { nums, den };
    let Some(bounds) = bounds_at(alloc, gone, &cleared)? else {
        return Ok(None);
    };
    let Some(bound) = taken(bounds.as_slice()) else {
        return Ok(None);
    };
    Ok(placed_by(cleared, gone.column, &bound))
}

/// The numbers of all columns, of which the last that went is found first. `None` exactly where a
/// number leaves ±(2^127 - 1).
fn found(alloc: Global, width: usize, trail: &[Eliminated]) -> Result<Option<Found>, AllocError>
    requires { All (IsInside width) trail.now }
    ensures exact { IfOk result (λ got. SomeIff (option_map point_in got) (PointWide trail.now (origin width)) (point_of width trail.now)) }
    ensures width { IfOk result (λ got. IfSome got (λ found. length found.nums.items ≡ width)) }
{
    let nums = vec![in alloc; 0; width]?;
    let mut found = Found { nums, den: 1 };
    'trail: for done in 0..trail.len() {
        let gone = &trail[trail.len() - 1 - done];
        match placed(alloc, gone, found)? {
            Some(next) => found = next,
            None => return Ok(None),
        }
    }
    Ok(Some(found))
}

/// Whether the evaluation of each row, rounded, stays within ±(2^127 - 1).
fn evaluate(alloc: Global, found: &Found, given: &[Row]) -> Result<bool, LinFault>
    requires { All (HasWidth (length found.now.nums.items)) given.now }
    ensures exact { IfOk result (λ yes. IsTrue yes ↔ All (λ row. IsWideAt (point_in found.now) (rounded row)) given.now) }
    ensures cause { IfErr result (λ fault. fault ≡ OutOfMemory) }
{
    'given: for place in 0..given.len() {
        let rounded = rounded(ExactRow::from_row(alloc, &given[place])?);
        if value_over(&rounded.row, found).is_none() {
            return Ok(false);
        }
    }
    Ok(true)
}

/// The point of the given rows that what was eliminated gives. `None` exactly where a number
/// leaves ±(2^127 - 1) on the way.
pub(crate) fn point(
    alloc: Global,
    width: usize,
    trail: &[Eliminated],
    given: &[Row],
) -> Result<Option<RatPoint>, FindFault>
    requires trail { All (IsInside width) trail.now }
    requires given { All (HasWidth width) given.now }
    ensures exact { IfOk result (λ got. SomeIff got (IsFoundWide width trail.now given.now) (point_of width trail.now)) }
    ensures open_there { EndsOpen width given.now trail.now → IfOk result (λ got. IfSome got (λ point. Satisfies (rounded_system width given.now) point)) }
    ensures cause { IfErr result (λ fault. fault ≡ Memory) }
{
    let Some(found) = found(alloc, width, trail)? else {
        return Ok(None);
    };
    if !of_memory(evaluate(alloc, &found, given))? {
        return Ok(None);
    }
    let Found { nums, den } = found;
    Ok(Some(RatPoint {
        nums: List::from_vec(nums),
        den,
    }))
}
