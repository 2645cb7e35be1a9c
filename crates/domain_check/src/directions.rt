//! The systems over directions of a domain's own indices.

ghost use Rattle.std.specs.Prelude.{◌≡◌, ◌<◌, ◌≤◌, ◌+◌, ◌++◌, [], ◌∷◌, All, map, flat_map, IfOk, OnOk};
ghost use Rattle.az_lin.specs.Affine.{IsEntry};
ghost use Rattle.farkas_check.specs.Directions.{coef_at};
ghost use Rattle.expr_places.specs.Directions.{slope, moves};
ghost use Rattle.formula_refute.specs.Claims.{claim, all_of};
ghost use Rattle.formula_refute.specs.Domains.{atoms};
ghost use Rattle.domain_check.specs.Directions.{rows_of, along_each, directions_in};

use az_lin::{Domain, LinFault, Row, TryCopy};
use formula_refute::Formula;
use sqlite_items::Items;
use std::alloc::{AllocError, Global};

/// A domain's own columns: so many behind the outer ones.
#[derive(Debug, Clone, Copy)]
pub(crate) struct Own {
    pub(crate) outer: usize,
    pub(crate) extra: usize,
}

/// The coefficient in a column, 0 behind the last.
fn coef_at(row: &Row, column: usize) -> i128
    ensures value { result ≡ coef_at row.now column }
    ensures range { IsEntry result }
{
    if column < row.width() {
        row.coef(column)
    } else {
        0
    }
}

/// How a row changes along a direction.
fn slope(alloc: Global, own: Own, row: &Row) -> Result<Row, AllocError>
    requires { own.outer + own.extra ≤ 64 }
    ensures { IfOk result (λ made. made ≡ slope own.outer own.extra row.now) }
{
    let mut coefs = Vec::new(alloc);
    'columns: for column in 0..own.extra {
        coefs.push(coef_at(row, own.outer + column))?;
    }
    match Row::new(alloc, coefs.as_slice(), 0) {
        Ok(made) => Ok(made),
        Err(LinFault::Memory) => Err(AllocError),
        Err(_) => unreachable!(),
    }
}

/// The index moves by at least one.
fn moves(alloc: Global, extra: usize, index: usize, sign: i128) -> Result<Row, AllocError>
    requires inside { index < extra }
    requires sign { IsEntry sign }
    ensures { IfOk result (λ made. made ≡ moves extra index sign) }
{
    let mut coefs = vec![in alloc; 0; extra]?;
    coefs[index] = sign;
    match Row::new(alloc, coefs.as_slice(), -1) {
        Ok(made) => Ok(made),
        Err(LinFault::Memory) => Err(AllocError),
        Err(_) => unreachable!(),
    }
}

fn copied(alloc: Global, row: &Row) -> Result<Row, AllocError>
    ensures { IfOk result (λ copied. copied ≡ row.now) }
{
    match row.copy(alloc) {
        Ok(copied) => Ok(copied),
        Err(LinFault::Memory) => Err(AllocError),
        Err(_) => unreachable!(),
    }
}

fn all_of(alloc: Global, slopes: &[Row], last: Row) -> Result<Formula, AllocError>
    ensures { IfOk result (λ formula. claim formula ≡ all_of (atoms (slopes.now ++ last ∷ []))) }
{
    let mut members = Vec::new(alloc);
    'rows: for row in slopes {
        members.push(Formula::Atom(copied(alloc, row)?))?;
    }
    members.push(Formula::Atom(last))?;
    Ok(Formula::All(Items::from_vec(members)))
}

/// Appends the systems along each index, first upwards and then downwards.
fn push_along_each(
    alloc: Global,
    found: &mut Vec<Formula>,
    slopes: &[Row],
    extra: usize,
) -> Result<(), AllocError>
    ensures { OnOk result (map claim found.new.items ≡ map claim found.old.items ++ along_each extra slopes.now) }
{
    'indices: for index in 0..extra {
        let upwards = moves(alloc, extra, index, 1)?;
        let downwards = moves(alloc, extra, index, -1)?;
        found.push(all_of(alloc, slopes, upwards)?)?;
        found.push(all_of(alloc, slopes, downwards)?)?;
    }
    Ok(())
}

fn push_slopes(
    alloc: Global,
    slopes: &mut Vec<Row>,
    own: Own,
    rows: &[Row],
) -> Result<(), AllocError>
    requires { own.outer + own.extra ≤ 64 }
    ensures { OnOk result (slopes.new.items ≡ slopes.old.items ++ map (slope own.outer own.extra) rows.now) }
{
    'rows: for row in rows {
        slopes.push(slope(alloc, own, row)?)?;
    }
    Ok(())
}

fn push_domain_slopes(
    alloc: Global,
    slopes: &mut Vec<Row>,
    own: Own,
    domain: &Domain,
) -> Result<(), AllocError>
    requires { own.outer + own.extra ≤ 64 }
    ensures { OnOk result (slopes.new.items ≡ slopes.old.items ++ map (slope own.outer own.extra) (rows_of domain.now)) }
{
    'conjs: for conj in domain.disjuncts() {
        push_slopes(alloc, slopes, own, conj.rows())?;
    }
    Ok(())
}

fn push_slopes_around(
    alloc: Global,
    slopes: &mut Vec<Row>,
    own: Own,
    around: &[&Domain],
) -> Result<(), AllocError>
    requires { own.outer + own.extra ≤ 64 }
    ensures { OnOk result (slopes.new.items ≡ slopes.old.items ++ map (slope own.outer own.extra) (flat_map rows_of (map (λ domain. domain.now) around.now))) }
{
    'domains: for domain in around {
        push_domain_slopes(alloc, slopes, own, domain)?;
    }
    Ok(())
}

/// The systems over the domain's own columns, of its rows and of those of the domains around it.
pub(crate) fn directions_in(
    alloc: Global,
    around: &[&Domain],
    domain: &Domain,
    own: Own,
) -> Result<Vec<Formula>, AllocError>
    requires { own.outer + own.extra ≤ 64 }
    ensures { IfOk result (λ found. map claim found.items ≡ directions_in (map (λ domain. domain.now) around.now) domain.now own.outer own.extra) }
{
    let mut found = Vec::new(alloc);
    'disjuncts: for conj in domain.disjuncts() {
        let mut slopes = Vec::new(alloc);
        push_slopes_around(alloc, &mut slopes, own, around)?;
        push_slopes(alloc, &mut slopes, own, conj.rows())?;
        push_along_each(alloc, &mut found, slopes.as_slice(), own.extra)?;
    }
    Ok(found)
}
