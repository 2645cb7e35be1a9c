//! Columns and parameters put in, maps that keep coordinates, and differences of rows.

ghost use Rattle.std.specs.Prelude.{◌≡◌, ◌≤◌, length, All, IfOk};
ghost use Rattle.az_lin.specs.Affine.{IsEntry};

use crate::Line;
use az_lin::{Conj, Domain, LinFault, List, Map, Row};
use row_columns::{
    apart_by, conj_at_params, domain_at_params, extended, identity, map_at_params, reading,
    row_at_params, unit_row, widened_conj, widened_domain, widened_map, widened_row,
};
use std::alloc::Global;
use std::test::Fail;

fn is_line(row: &Row, line: Line<'_>) -> bool {
    row.coefs() == line.0 && row.konst() == line.1
}

fn are_lines(rows: &[Row], lines: &[Line<'_>]) -> bool {
    rows.len() == lines.len()
        && rows
            .iter()
            .zip(lines)
            .all(|(row, line)| is_line(row, *line))
}

/// The row `2 a + 3 b - 5 c + 7`.
fn row(alloc: Global) -> Result<Row, LinFault>
    ensures { IfOk result (λ row. length row.coefs ≡ 3) }
{
    Row::new(alloc, &[2, 3, -5], 7)
}

fn map(alloc: Global) -> Result<Map, LinFault>
    ensures { IfOk result (λ map. map.width ≡ 3) }
{
    let mut rows = List::new(alloc);
    rows.push(row(alloc)?)?;
    Ok(Map::new(3, rows))
}

fn conj(alloc: Global) -> Result<Conj, LinFault>
    ensures { IfOk result (λ conj. conj.width ≡ 3) }
{
    let mut rows = List::new(alloc);
    rows.push(row(alloc)?)?;
    Ok(Conj::new(3, rows))
}

fn domain(alloc: Global) -> Result<Domain, LinFault>
    ensures { IfOk result (λ domain. domain.width ≡ 3) }
{
    Domain::of_conj(alloc, conj(alloc)?)
}

fn has_line(domain: &Domain, width: usize, line: Line<'_>) -> bool {
    match domain.disjuncts() {
        [only] => domain.width() == width && are_lines(only.rows(), &[line]),
        _ => false,
    }
}

/// Whether the row with columns put in is as wanted, and the map, the conjunction and the domain
/// of that row have it.
fn widens(alloc: Global, place: usize, count: usize, wanted: Line<'_>) -> Result<bool, LinFault>
    requires inside { place ≤ 3 }
    requires narrow { count ≤ 3 }
{
    Ok(is_line(&widened_row(alloc, &row(alloc)?, place, count)?, wanted))
}

fn widens_map(alloc: Global, place: usize, count: usize, wanted: Line<'_>) -> Result<bool, LinFault>
    requires inside { place ≤ 3 }
    requires narrow { count ≤ 3 }
{
    let wide = widened_map(alloc, &map(alloc)?, place, count)?;
    Ok(wide.width() == 3 + count && are_lines(wide.rows(), &[wanted]))
}

fn widens_conj(
    alloc: Global,
    place: usize,
    count: usize,
    wanted: Line<'_>,
) -> Result<bool, LinFault>
    requires inside { place ≤ 3 }
    requires narrow { count ≤ 3 }
{
    let wide = widened_conj(alloc, &conj(alloc)?, place, count)?;
    Ok(wide.width() == 3 + count && are_lines(wide.rows(), &[wanted]))
}

fn widens_domain(
    alloc: Global,
    place: usize,
    count: usize,
    wanted: Line<'_>,
) -> Result<bool, LinFault>
    requires inside { place ≤ 3 }
    requires narrow { count ≤ 3 }
{
    let wide = widened_domain(alloc, &domain(alloc)?, place, count)?;
    Ok(has_line(&wide, 3 + count, wanted))
}

#[test]
fn puts_columns_in(rt: HostRuntime) -> Result<(), Fail> {
    let alloc = rt.alloc();
    assert!(rt; widens(alloc, 0, 1, (&[0, 2, 3, -5], 7))?);
    assert!(rt; widens(alloc, 2, 2, (&[2, 3, 0, 0, -5], 7))?);
    assert!(rt; widens(alloc, 3, 1, (&[2, 3, -5, 0], 7))?);
    assert!(rt; widens(alloc, 1, 0, (&[2, 3, -5], 7))?);
    let wanted: Line<'_> = (&[2, 0, 3, -5], 7);
    assert!(rt; widens_map(alloc, 1, 1, wanted)?);
    assert!(rt; widens_conj(alloc, 1, 1, wanted)?);
    assert!(rt; widens_domain(alloc, 1, 1, wanted)?);
    Ok(())
}

/// Whether the row with parameters put in is as wanted.
fn puts(alloc: Global, params: &[i128], wanted: Line<'_>) -> Result<bool, LinFault>
    requires inside { length params.now ≤ 3 }
    requires range { All IsEntry params.now }
{
    Ok(is_line(&row_at_params(alloc, &row(alloc)?, params)?, wanted))
}

fn puts_map(alloc: Global, params: &[i128], wanted: Line<'_>) -> Result<bool, LinFault>
    requires inside { length params.now ≤ 3 }
    requires range { All IsEntry params.now }
{
    let put = map_at_params(alloc, &map(alloc)?, params)?;
    Ok(put.width() == 3 - params.len() && are_lines(put.rows(), &[wanted]))
}

fn puts_conj(alloc: Global, params: &[i128], wanted: Line<'_>) -> Result<bool, LinFault>
    requires inside { length params.now ≤ 3 }
    requires range { All IsEntry params.now }
{
    let put = conj_at_params(alloc, &conj(alloc)?, params)?;
    Ok(put.width() == 3 - params.len() && are_lines(put.rows(), &[wanted]))
}

fn puts_domain(alloc: Global, params: &[i128], wanted: Line<'_>) -> Result<bool, LinFault>
    requires inside { length params.now ≤ 3 }
    requires range { All IsEntry params.now }
{
    let put = domain_at_params(alloc, &domain(alloc)?, params)?;
    Ok(has_line(&put, 3 - params.len(), wanted))
}

#[test]
fn puts_parameters_in(rt: HostRuntime) -> Result<(), Fail> {
    let alloc = rt.alloc();
    assert!(rt; puts(alloc, &[], (&[2, 3, -5], 7))?);
    assert!(rt; puts(alloc, &[10], (&[3, -5], 27))?);
    assert!(rt; puts(alloc, &[10, -1, 4], (&[], 4))?);
    let wanted: Line<'_> = (&[-5], 24);
    assert!(rt; puts_map(alloc, &[10, -1], wanted)?);
    assert!(rt; puts_conj(alloc, &[10, -1], wanted)?);
    assert!(rt; puts_domain(alloc, &[10, -1], wanted)?);
    Ok(())
}

const MOST: i128 = (1 << 60) - 1;

/// Whether 2 a - 2 b, with these put in, has a constant that is refused.
fn refuses(alloc: Global, params: &[i128]) -> Result<bool, LinFault>
    requires inside { length params.now ≤ 2 }
    requires range { All IsEntry params.now }
{
    let row = Row::new(alloc, &[2, -2], 0)?;
    match row_at_params(alloc, &row, params) {
        Err(LinFault::Entry) => Ok(true),
        _ => Ok(false),
    }
}

#[test]
fn refuses_a_constant_out_of_range(rt: HostRuntime) -> Result<(), Fail> {
    let alloc = rt.alloc();
    assert!(rt; refuses(alloc, &[MOST])?);
    assert!(rt; !refuses(alloc, &[MOST, MOST])?);
    Ok(())
}

fn keeps_all(alloc: Global, wanted: &[Line<'_>]) -> Result<bool, LinFault> {
    let same = identity(alloc, wanted.len())?;
    Ok(same.width() == wanted.len() && are_lines(same.rows(), wanted))
}

fn keeps_behind(alloc: Global, count: usize, wanted: &[Line<'_>]) -> Result<bool, LinFault>
    requires { count ≤ 3 }
{
    let longer = extended(alloc, &map(alloc)?, count)?;
    Ok(longer.width() == 3 + count && are_lines(longer.rows(), wanted))
}

fn keeps_before(alloc: Global, params: usize, wanted: &[Line<'_>]) -> Result<bool, LinFault>
    requires { params ≤ 3 }
{
    let read = reading(alloc, params, &map(alloc)?)?;
    Ok(read.width() == 3 && are_lines(read.rows(), wanted))
}

#[test]
fn keeps_coordinates(rt: HostRuntime) -> Result<(), Fail> {
    let alloc = rt.alloc();
    assert!(rt; is_line(&unit_row(alloc, 3, 1)?, (&[0, 1, 0], 0)));
    assert!(rt; keeps_all(alloc, &[(&[1, 0], 0), (&[0, 1], 0)])?);
    let own: Line<'_> = (&[2, 3, -5, 0, 0], 7);
    let behind = [own, (&[0, 0, 0, 1, 0], 0), (&[0, 0, 0, 0, 1], 0)];
    assert!(rt; keeps_behind(alloc, 2, &behind)?);
    let before = [(&[1, 0, 0][..], 0), (&[0, 1, 0], 0), (&[2, 3, -5], 7)];
    assert!(rt; keeps_before(alloc, 2, &before)?);
    Ok(())
}

/// Whether the difference of two rows, less a number, is as wanted; `None` for one that is refused.
fn sets_apart(
    alloc: Global,
    less: &i128,
    left: Line<'_>,
    right: Line<'_>,
    wanted: Option<Line<'_>>,
) -> Result<bool, LinFault>
    requires { IsEntry less.now }
{
    let left = Row::new(alloc, left.0, left.1)?;
    let right = Row::new(alloc, right.0, right.1)?;
    match (apart_by(alloc, less, &left, &right), wanted) {
        (Ok(row), Some(line)) => Ok(is_line(&row, line)),
        (Err(LinFault::Entry), None) => Ok(true),
        _ => Ok(false),
    }
}

#[test]
fn sets_rows_apart(rt: HostRuntime) -> Result<(), Fail> {
    let alloc = rt.alloc();
    let row: Line<'_> = (&[2, 3, -5], 7);
    let short: Line<'_> = (&[1], 4);
    assert!(rt; sets_apart(alloc, &1, row, short, Some((&[1, 3, -5], 2)))?);
    assert!(rt; sets_apart(alloc, &0, short, row, Some((&[-1, -3, 5], -3)))?);
    assert!(rt; sets_apart(alloc, &-1, (&[], MOST), (&[], 0), None)?);
    Ok(())
}
