//! Formulas over the rows of two instances, place by place, as far as both have rows.

ghost use Rattle.std.specs.Prelude.{◌≡◌, ◌<◌, ◌∷◌, ◌++◌, [], List, length, OnOk, IfOk};
ghost use Rattle.formula_refute.specs.Claims.{Claim, all_of, claims};
ghost use Rattle.order_sets.specs.Made.{IsMade, AreMade};
ghost use Rattle.order_sets.specs.NotBefore.{both_ways, greater, each_pair, equal, less};
ghost use Rattle.order_sets.specs.Pairs.{rows_of};

use crate::members::{Members, at_least, greater};
use az_lin::Row;
use formula_refute::Formula;
use std::alloc::{AllocError, Global};

/// What the rows of a pair say of the first coordinate beside the second.
#[derive(Debug, Clone, Copy)]
pub enum Pair {
    /// At least and at most: equal.
    BothWays,
    /// Greater.
    Exceeds,
    /// At most.
    IsWithin,
    /// Less, or greater: two members.
    Apart,
}

/// At one place.
pub fn push_pair(
    members: &mut Members,
    alloc: Global,
    pair: Pair,
    u: &Row,
    v: &Row,
) -> Result<(), AllocError>
    ensures { (cs : List Claim) → OnOk result (AreMade cs members.old → AreMade (cs ++ rows_of pair u.now v.now) members.new) }
{
    match pair {
        Pair::BothWays => {
            members.push(at_least(alloc, u, v)?)?;
            members.push(at_least(alloc, v, u)?)?;
            Ok(())
        }
        Pair::Exceeds => {
            members.push(greater(alloc, u, v)?)?;
            Ok(())
        }
        Pair::IsWithin => {
            members.push(at_least(alloc, v, u)?)?;
            Ok(())
        }
        Pair::Apart => {
            members.push(greater(alloc, v, u)?)?;
            members.push(greater(alloc, u, v)?)?;
            Ok(())
        }
    }
}

/// At each place.
pub fn push_each_pair(
    members: &mut Members,
    alloc: Global,
    pair: Pair,
    us: &[Row],
    vs: &[Row],
) -> Result<(), AllocError>
    ensures { (cs : List Claim) → OnOk result (AreMade cs members.old → AreMade (cs ++ each_pair (rows_of pair) us.now vs.now) members.new) }
{
    'places: for place in 0..us.len().min(vs.len()) {
        push_pair(members, alloc, pair, &us[place], &vs[place])?;
    }
    Ok(())
}

/// Equal at each place.
pub fn equal(alloc: Global, us: &[Row], vs: &[Row]) -> Result<Option<Formula>, AllocError>
    ensures { IfOk result (IsMade (equal us.now vs.now)) }
{
    let mut places = Members::new(alloc);
    push_each_pair(&mut places, alloc, Pair::BothWays, us, vs)?;
    Ok(places.all())
}

/// Equal before a place, and less there.
fn less_at(
    alloc: Global,
    us: &[Row],
    vs: &[Row],
    u: &Row,
    v: &Row,
) -> Result<Option<Formula>, AllocError>
    ensures { IfOk result (IsMade (all_of (claims (each_pair both_ways us.now vs.now ++ greater v.now u.now ∷ [])))) }
{
    let mut rows = Members::new(alloc);
    push_each_pair(&mut rows, alloc, Pair::BothWays, us, vs)?;
    rows.push(greater(alloc, v, u)?)?;
    Ok(rows.all())
}

/// Lexicographically less.
pub fn less(alloc: Global, us: &[Row], vs: &[Row]) -> Result<Option<Formula>, AllocError>
    ensures { IfOk result (IsMade (less us.now vs.now)) }
{
    let mut places = Members::new(alloc);
    'places: for place in 0..us.len().min(vs.len()) {
        let (before, behind) = (&us[..place], &vs[..place]);
        places.push(less_at(alloc, before, behind, &us[place], &vs[place])?)?;
    }
    Ok(places.any())
}
