//! Domains as tables write them.

ghost use Rattle.std.specs.Prelude.{◌≡◌, ◌≤◌, length, All, IsTrue, ◌↔◌, IfOk};
ghost use Rattle.az_lin.specs.Affine.{HasWidth, IsOver, IsEntry};

use az_lin::{Conj, Domain, LinFault, List, Row};
use std::alloc::Global;

/// The greatest magnitude of a parameter.
const MOST_ENTRY: i128 = (1 << 60) - 1;

/// The coefficients by column, and then the constant.
pub(crate) type Line = &'static [i128];

/// A union of conjunctions of lines.
pub(crate) type Disjuncts = &'static [&'static [Line]];

/// The row of a line, where it has as many coefficients.
fn row(alloc: Global, line: &[i128], width: usize) -> Result<Row, LinFault>
    ensures { IfOk result (HasWidth width) }
{
    match line.split_last() {
        Some((konst, coefs)) if coefs.len() == width => Row::new(alloc, coefs, *konst),
        _ => Err(LinFault::Entry),
    }
}

fn conj(alloc: Global, lines: &[Line], width: usize) -> Result<Conj, LinFault>
    ensures { IfOk result (IsOver width) }
{
    let mut rows = Vec::with_capacity(alloc, lines.len())?;
    'rows: for line in lines {
        rows.push(row(alloc, line, width)?)?;
    }
    Ok(Conj::new(width, List::from_vec(rows)))
}

pub(crate) fn domain(alloc: Global, disjuncts: &[&[Line]], width: usize) -> Result<Domain, LinFault>
    ensures { IfOk result (λ domain. domain.width ≡ width) }
{
    let mut conjs = Vec::with_capacity(alloc, disjuncts.len())?;
    'conjs: for lines in disjuncts {
        conjs.push(conj(alloc, lines, width)?)?;
    }
    if conjs.is_empty() {
        return Err(LinFault::Entry);
    }
    Domain::of_list(width, List::from_vec(conjs))
}

/// Whether these may be the values of a domain's first columns.
pub(crate) fn may_be_params(params: &[i128], width: usize) -> bool
    ensures { IsTrue result ↔ ((length params.now ≤ width) × (width ≤ 64) × All IsEntry params.now) }
{
    params.len() <= width
        && width <= 64
        && params
            .iter()
            .all(|param| -MOST_ENTRY <= *param && *param <= MOST_ENTRY)
}
