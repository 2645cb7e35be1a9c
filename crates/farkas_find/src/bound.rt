//! The bounds that rows give to the number of a column.

ghost use Rattle.std.specs.Prelude.{◌≡◌, ◌<◌, length, map, All, SomeIff, MatchOption, IfSome, IfOk};
ghost use Rattle.az_lin.specs.Affine.{IsWide};
ghost use Rattle.az_lin.specs.RationalPoint.{IsWideAt};
ghost use Rattle.farkas_find.specs.Combining.{has_sign, HaveWidth};
ghost use Rattle.farkas_find.specs.BackSubstitution.{point_in, bounds_at, IsInside, magnitude, tighter, tightest, taken, factor_at, number_at, AreComparable, TightestWide, TakenWide, HasWideBound, CanBeTaken};

use crate::found::Found;
use crate::trail::Eliminated;
use crate::value::value_over;
use az_lin::wide_product;
use std::alloc::{AllocError, Global};

/// The coefficient of a row in a column, and the value of the rest of the row.
#[derive(Debug, Clone, Copy)]
pub(crate) struct Bound {
    pub(crate) rest: i128,
    pub(crate) coef: i128,
}

impl Bound {
    /// Whether it bounds from below, or else whether from above.
    fn is_from(&self, below: bool) -> bool
        ensures { result ≡ has_sign below self.now.coef }
    {
        if below { self.coef > 0 } else { self.coef < 0 }
    }

    fn magnitude(&self) -> i128
        requires { IsWide self.now.coef }
        ensures { result ≡ magnitude self.now.coef }
    {
        self.coef.unsigned_abs() as i128
    }
}

/// The bound of each row, or `None` exactly where the rest of a row leaves ±(2^127 - 1).
#[tactic(auto, unfolding(crate::specs::BackSubstitution::bounds_at))]
pub(crate) fn bounds_at(
    alloc: Global,
    gone: &Eliminated,
    found: &Found,
) -> Result<Option<Vec<Bound>>, AllocError>
    requires { IsInside (length found.now.nums.items) gone.now }
    ensures { IfOk result (λ got. MatchOption got (¬ All (λ it. IsWideAt (point_in found.now) it.row) gone.now.rows)
        (λ bounds. All (λ it. IsWideAt (point_in found.now) it.row) gone.now.rows
        × (bounds.items ≡ bounds_at gone.now (point_in found.now)) × All HasWideBound bounds.items)) }
{
    let rows = gone.rows.as_slice();
    let mut bounds = Vec::with_capacity(alloc, rows.len())?;
    'rows: for place in 0..rows.len() {
        let it = &rows[place];
        let Some(rest) = value_over(&it.row, found) else {
            return Ok(None);
        };
        bounds.push(Bound {
            rest,
            coef: it.coef(gone.column),
        })?;
    }
    Ok(Some(bounds))
}

/// The tighter of the best bound so far and the next one from its side, or `None` exactly where
/// comparing them leaves ±(2^127 - 1).
#[tactic(auto, unfolding(crate::specs::BackSubstitution::tighter))]
fn tighter(best: &Option<Bound>, next: &Bound) -> Option<Bound>
    requires best { IfSome best.now CanBeTaken }
    requires next { CanBeTaken next.now }
    ensures exact { SomeIff result (AreComparable best.now next.now) (tighter best.now next.now) }
    ensures range { IfSome result CanBeTaken }
{
    let Some(best) = best else {
        return Some(*next);
    };
    let Some(new) = wide_product(next.rest, best.magnitude()) else {
        return None;
    };
    let Some(old) = wide_product(best.rest, next.magnitude()) else {
        return None;
    };
    if new < old { Some(*next) } else { Some(*best) }
}

/// The tightest bound from below, or else from above.
#[tactic(auto, unfolding(crate::specs::BackSubstitution::tightest, crate::specs::BackSubstitution::TightestWide), using(crate::proofs::Bounds::can_be_taken))]
fn tightest(bounds: &[Bound], below: bool) -> Option<Option<Bound>>
    requires { All HasWideBound bounds.now }
    ensures exact { SomeIff result (TightestWide below bounds.now) (tightest below bounds.now) }
    ensures range { IfSome result (λ best. IfSome best CanBeTaken) }
{
    let mut best = None;
    'bounds: for place in 0..bounds.len() {
        let next = &bounds[place];
        if next.is_from(below) {
            let Some(tighter) = tighter(&best, next) else {
                return None;
            };
            best = Some(tighter);
        }
    }
    Some(best)
}

/// The bound that the column takes, if there is one.
#[tactic(auto, unfolding(crate::specs::BackSubstitution::taken))]
pub(crate) fn taken(bounds: &[Bound]) -> Option<Option<Bound>>
    requires { All HasWideBound bounds.now }
    ensures exact { SomeIff result (TakenWide bounds.now) (taken bounds.now) }
    ensures range { IfSome result (λ best. IfSome best CanBeTaken) }
{
    let Some(below) = tightest(bounds, true) else {
        return None;
    };
    match below {
        Some(bound) => Some(Some(bound)),
        None => tightest(bounds, false),
    }
}

pub(crate) fn factor_at(bound: &Option<Bound>) -> i128
    requires { IfSome bound.now CanBeTaken }
    ensures { result ≡ factor_at bound.now }
{
    match bound {
        None => 1,
        Some(bound) => bound.magnitude(),
    }
}

pub(crate) fn number_at(bound: &Option<Bound>) -> i128
    requires { IfSome bound.now CanBeTaken }
    ensures { result ≡ number_at bound.now }
{
    match bound {
        None => 0,
        Some(bound) => {
            if bound.coef > 0 {
                -bound.rest
            } else {
                bound.rest
            }
        }
    }
}
