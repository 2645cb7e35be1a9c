//! Which points conjunctions and domains hold, and the values of rows there.

ghost use Rattle.std.specs.Prelude.{◌≡◌, ◌≤◌, length, All, IfOk};
ghost use Rattle.az_lin.specs.Affine.{IsCoordinate, IsEntry};

use az_lin::{Conj, Domain, LinFault, List, Row};
use std::alloc::Global;
use std::test::Fail;

const MOST_COORDINATE: i128 = (1 << 40) - 1;

const MOST_PARAMETER: i128 = (1 << 60) - 1;

/// The triangle `0 <= y <= x` in the plane.
fn triangle(alloc: Global) -> Result<Conj, LinFault>
    ensures { IfOk result (λ conj. conj.width ≡ 2) }
{
    let mut rows = List::new(alloc);
    rows.push(Row::new(alloc, &[0, 1], 0)?)?;
    rows.push(Row::new(alloc, &[1, -1], 0)?)?;
    Ok(Conj::new(2, rows))
}

/// The triangle, and where `x + y >= 10`.
fn union(alloc: Global) -> Result<Domain, LinFault>
    ensures { IfOk result (λ domain. domain.width ≡ 2) }
{
    let mut rows = List::new(alloc);
    rows.push(Row::new(alloc, &[1, 1], -10)?)?;
    let mut disjuncts = List::new(alloc);
    disjuncts.push(triangle(alloc)?)?;
    disjuncts.push(Conj::new(2, rows))?;
    Domain::of_list(2, disjuncts)
}

/// Whether the union holds the point, as a point and as parameters.
fn holds(alloc: Global, z: &[i128; 2]) -> Result<bool, LinFault>
    requires { All IsCoordinate z.now }
{
    let domain = union(alloc)?;
    Ok(domain.holds(z) && domain.holds_params(z))
}

fn misses(alloc: Global, z: &[i128; 2]) -> Result<bool, LinFault>
    requires { All IsCoordinate z.now }
{
    let domain = union(alloc)?;
    Ok(!domain.holds(z) && !domain.holds_params(z))
}

#[test]
fn holds_points_of_each_disjunct(rt: HostRuntime) -> Result<(), Fail> {
    let alloc = rt.alloc();
    assert!(rt; holds(alloc, &[0, 0])?);
    assert!(rt; holds(alloc, &[3, 3])?);
    assert!(rt; holds(alloc, &[3, 7])?);
    assert!(rt; misses(alloc, &[3, 4])?);
    assert!(rt; misses(alloc, &[3, -1])?);
    assert!(rt; misses(alloc, &[MOST_COORDINATE, -MOST_COORDINATE])?);
    Ok(())
}

/// Whether the triangle holds the parameters.
fn admits(alloc: Global, params: &[i128; 2]) -> Result<bool, LinFault>
    requires { All IsEntry params.now }
{
    let triangle = triangle(alloc)?;
    Ok(triangle.holds_params(params))
}

#[test]
fn holds_parameters_far_out(rt: HostRuntime) -> Result<(), Fail> {
    let alloc = rt.alloc();
    assert!(rt; admits(alloc, &[MOST_PARAMETER, MOST_PARAMETER])?);
    assert!(rt; !admits(alloc, &[MOST_PARAMETER - 1, MOST_PARAMETER])?);
    Ok(())
}

/// The value of `(2^60 - 1) x + 7 y - 1` at the numbers, where missing ones count for nothing.
fn value(alloc: Global, params: &[i128]) -> Result<i128, LinFault>
    requires inside { length params.now ≤ 2 }
    requires range { All IsEntry params.now }
{
    let row = Row::new(alloc, &[MOST_PARAMETER, 7], -1)?;
    Ok(row.value_at_params(params))
}

#[test]
fn computes_values_far_out(rt: HostRuntime) -> Result<(), Fail> {
    let alloc = rt.alloc();
    let square = (1 << 120) - (1 << 61) + 1;
    assert!(rt; value(alloc, &[MOST_PARAMETER])? == square - 1);
    assert!(rt; value(alloc, &[0, -2])? == -15);
    Ok(())
}
