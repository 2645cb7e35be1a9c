//! The formula that is true where an instance isn't before another.

ghost use Rattle.std.specs.Prelude.{◌≡◌, ◌∷◌, ◌++◌, [], List, OnOk, IfOk};
ghost use Rattle.formula_refute.specs.Claims.{Claim, all_of, any_of, claims};
ghost use Rattle.order_sets.specs.Made.{IsMade, AreMade};
ghost use Rattle.order_sets.specs.NotBefore.{equal, beside, not_ahead, in_one_step, not_before, unit_at_least};
ghost use Rattle.order_sets.specs.Rows.{stamp_of};

use crate::TimeRows;
use crate::members::{Members, at_least};
use crate::pair::{Pair, equal, less, push_each_pair};
use az_lin::Row;
use formula_refute::Formula;
use std::alloc::{AllocError, Global};

/// Not less in a coordinate, if its tiles have size 1.
fn push_unit(
    members: &mut Members,
    alloc: Global,
    size: u32,
    u: &Row,
    v: &Row,
) -> Result<(), AllocError>
    ensures { (cs : List Claim) → OnOk result (AreMade cs members.old → AreMade (cs ++ unit_at_least (size ∷ []) (u.now ∷ []) (v.now ∷ [])) members.new) }
{
    if size != 1 {
        return Ok(());
    }
    members.push(at_least(alloc, u, v)?)?;
    Ok(())
}

/// Not less in each coordinate whose tiles have size 1.
fn push_units(
    members: &mut Members,
    alloc: Global,
    sizes: &[u32],
    us: &[Row],
    vs: &[Row],
) -> Result<(), AllocError>
    ensures { (cs : List Claim) → OnOk result (AreMade cs members.old → AreMade (cs ++ unit_at_least sizes.now us.now vs.now) members.new) }
{
    'places: for place in 0..sizes.len().min(us.len()).min(vs.len()) {
        push_unit(members, alloc, sizes[place], &us[place], &vs[place])?;
    }
    Ok(())
}

/// On another processor, or not earlier in the tile.
fn beside(alloc: Global, u: &TimeRows, v: &TimeRows) -> Result<Option<Formula>, AllocError>
    ensures { IfOk result (IsMade (any_of (claims (beside (stamp_of u.now) (stamp_of v.now))))) }
{
    let mut some = Members::new(alloc);
    let (first, second) = (u.processor.as_slice(), v.processor.as_slice());
    push_each_pair(&mut some, alloc, Pair::Apart, first, second)?;
    let (first, second) = (u.tile.as_slice(), v.tile.as_slice());
    some.push(less(alloc, second, first)?)?;
    some.push(equal(alloc, first, second)?)?;
    Ok(some.any())
}

/// Not back in the band, in no unit tile ahead, and beside.
fn not_ahead(
    alloc: Global,
    sizes: &[u32],
    u: &TimeRows,
    v: &TimeRows,
) -> Result<Option<Formula>, AllocError>
    ensures { IfOk result (IsMade (all_of (claims (not_ahead sizes.now (stamp_of u.now) (stamp_of v.now))))) }
{
    let mut all = Members::new(alloc);
    let (first, second) = (u.band.as_slice(), v.band.as_slice());
    push_each_pair(&mut all, alloc, Pair::IsWithin, first, second)?;
    push_units(&mut all, alloc, sizes, first, second)?;
    all.push(beside(alloc, u, v)?)?;
    Ok(all.all())
}

/// Back in the band, or not ahead.
fn in_one_step(
    alloc: Global,
    sizes: &[u32],
    u: &TimeRows,
    v: &TimeRows,
) -> Result<Option<Formula>, AllocError>
    ensures { IfOk result (IsMade (any_of (claims (in_one_step sizes.now (stamp_of u.now) (stamp_of v.now))))) }
{
    let mut some = Members::new(alloc);
    let (first, second) = (u.band.as_slice(), v.band.as_slice());
    push_each_pair(&mut some, alloc, Pair::Exceeds, first, second)?;
    some.push(not_ahead(alloc, sizes, u, v)?)?;
    Ok(some.any())
}

/// At one step of the outer dimensions, and there not before.
fn at_one_step(
    alloc: Global,
    sizes: &[u32],
    u: &TimeRows,
    v: &TimeRows,
) -> Result<Option<Formula>, AllocError>
    ensures { IfOk result (IsMade (all_of (claims (equal u.now.outer.items v.now.outer.items ∷ any_of (claims (in_one_step sizes.now (stamp_of u.now) (stamp_of v.now))) ∷ [])))) }
{
    let mut all = Members::new(alloc);
    let (first, second) = (u.outer.as_slice(), v.outer.as_slice());
    all.push(equal(alloc, first, second)?)?;
    all.push(in_one_step(alloc, sizes, u, v)?)?;
    Ok(all.all())
}

/// True where the first instance isn't before the second, over tiles of these sizes.
pub fn not_before(
    alloc: Global,
    sizes: &[u32],
    u: &TimeRows,
    v: &TimeRows,
) -> Result<Option<Formula>, AllocError>
    ensures { IfOk result (IsMade (not_before sizes.now (stamp_of u.now) (stamp_of v.now))) }
{
    let mut some = Members::new(alloc);
    let (first, second) = (u.outer.as_slice(), v.outer.as_slice());
    some.push(less(alloc, second, first)?)?;
    some.push(at_one_step(alloc, sizes, u, v)?)?;
    Ok(some.any())
}
