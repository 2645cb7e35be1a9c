//! The formulas that are true where two instances may be kept in one cell, and where they are two.

ghost use Rattle.std.specs.Prelude.{◌≤◌, All, length, drop, IfOk};
ghost use Rattle.formula_refute.specs.Claims.{all_of, any_of, claims};
ghost use Rattle.life_sets.specs.Cells.{meets, same_cell, other};
ghost use Rattle.order_sets.specs.Made.{IsMade};
ghost use Rattle.order_sets.specs.NotBefore.{both_ways, apart, each_pair};
ghost use Rattle.target_map.specs.Kinds.{most_size};

use az_ast::Program;
use az_lin::Row;
use formula_refute::Formula;
use order_sets::{Members, Pair, Visit, difference, push_each_pair, push_pair};
use std::alloc::{AllocError, Global};

/// The same coordinate.
fn equal(alloc: Global, u: &Row, v: &Row) -> Result<Option<Formula>, AllocError>
    ensures { IfOk result (IsMade (all_of (claims (both_ways u.now v.now)))) }
{
    let mut both = Members::new(alloc);
    push_pair(&mut both, alloc, Pair::BothWays, u, v)?;
    Ok(both.all())
}

/// The same coordinate, or one at least the factor away.
fn meets(alloc: Global, factor: u32, u: &Row, v: &Row) -> Result<Option<Formula>, AllocError>
    requires { factor ≤ most_size }
    ensures { IfOk result (IsMade (meets factor u.now v.now)) }
{
    if factor == 0 {
        return equal(alloc, u, v);
    }
    let factor = i128::from(factor);
    let mut some = Members::new(alloc);
    some.push(equal(alloc, u, v)?)?;
    some.push(difference(alloc, &factor, u, v)?)?;
    some.push(difference(alloc, &factor, v, u)?)?;
    Ok(some.any())
}

/// Each coordinate of two cells meets.
pub(crate) fn same_cell(
    alloc: Global,
    factors: &[u32],
    us: &[Row],
    vs: &[Row],
) -> Result<Option<Formula>, AllocError>
    requires { All (λ factor. factor ≤ most_size) factors.now }
    ensures { IfOk result (IsMade (all_of (claims (same_cell factors.now us.now vs.now)))) }
{
    let mut all = Members::new(alloc);
    'places: for place in 0..factors.len().min(us.len()).min(vs.len()) {
        all.push(meets(alloc, factors[place], &us[place], &vs[place])?)?;
    }
    Ok(all.all())
}

/// Another index somewhere: the rows of the indices stand behind those of the parameters.
fn other_point(
    alloc: Global,
    params: usize,
    us: &[Row],
    vs: &[Row],
) -> Result<Option<Formula>, AllocError>
    requires first { params ≤ length us.now }
    requires second { params ≤ length vs.now }
    ensures { IfOk result (IsMade (any_of (claims (each_pair apart (drop params vs.now) (drop params us.now))))) }
{
    let mut some = Members::new(alloc);
    push_each_pair(&mut some, alloc, Pair::Apart, &vs[params..], &us[params..])?;
    Ok(some.any())
}

/// Another variable, or another index somewhere.
pub(crate) fn other(
    alloc: Global,
    program: &Program,
    u: &Visit,
    v: &Visit,
) -> Result<Option<Formula>, AllocError>
    requires first { length program.now.params ≤ length u.now.at.rows }
    requires second { length program.now.params ≤ length v.now.at.rows }
    ensures { IfOk result (IsMade (other program.now u.now v.now)) }
{
    if u.variable != v.variable {
        return Ok(Members::new(alloc).all());
    }
    other_point(alloc, program.params().len(), u.at.rows(), v.at.rows())
}
