//! Columns that are put in at a place and count for nothing.

ghost use Rattle.std.specs.Prelude.{◌≡◌, ◌+◌, ◌<◌, ◌≤◌, ◌^◌, ◌↔◌, length, map, All, IfOk, IfErr};
ghost use Rattle.az_lin.specs.Affine.{HasWidth, Holds, HoldsSome, value_at, image_of};
ghost use Rattle.az_lin.specs.Columns.{with_zeros, without, widened, widened_map, widened_conj, widened_domain};
ghost use Rattle.az_lin.specs.Substitution.{Point};
ghost use Rattle.az_lin.specs.declared.fault.LinFault.TheVariants.{Memory};

use crate::zeros::{push_zeros, row_of};
use az_lin::{Conj, Domain, LinFault, List, Map, Row};
use smallvec::SmallVec;
use std::alloc::{AllocError, Global};

/// So many columns, and the place of the first.
#[derive(Debug, Clone, Copy)]
pub(crate) struct Columns {
    pub(crate) place: usize,
    pub(crate) count: usize,
}

fn with_zeros(
    alloc: Global,
    coefs: &[i128],
    place: usize,
    count: usize,
) -> Result<SmallVec<i128, 8>, AllocError>
    requires inside { place ≤ length coefs.now }
    requires narrow { length coefs.now + count < 2 ^ 32 }
    ensures { IfOk result (λ wide. wide.items ≡ with_zeros place count coefs.now) }
{
    let mut wide = SmallVec::with_capacity(alloc, coefs.len() + count)?;
    wide.extend_from_slice(&coefs[..place])?;
    push_zeros(&mut wide, count)?;
    wide.extend_from_slice(&coefs[place..])?;
    Ok(wide)
}

/// The row with so many columns put in at the place.
pub fn widened_row(alloc: Global, row: &Row, place: usize, count: usize) -> Result<Row, LinFault>
    requires inside { place ≤ length row.now.coefs }
    requires narrow { length row.now.coefs + count < 2 ^ 32 }
    ensures ok { IfOk result (λ wide. wide ≡ widened place count row.now) }
    ensures meaning { (z : Point) → IfOk result (λ wide. value_at wide z ≡ value_at row.now (without place count z)) }
    ensures cause { IfErr result (λ fault. fault ≡ Memory) }
{
    let coefs = with_zeros(alloc, row.coefs(), place, count)?;
    row_of(alloc, coefs.as_slice(), row.konst())
}

pub(crate) fn widened_rows(
    alloc: Global,
    rows: &[Row],
    width: usize,
    columns: &Columns,
) -> Result<List<Row>, LinFault>
    requires widths { All (HasWidth width) rows.now }
    requires inside { columns.now.place ≤ width }
    requires narrow { width + columns.now.count < 2 ^ 32 }
    ensures ok { IfOk result (λ wide. wide ≡ map (λ row. widened columns.now.place columns.now.count row) rows.now) }
    ensures cause { IfErr result (λ fault. fault ≡ Memory) }
{
    let mut wide = Vec::with_capacity(alloc, rows.len())?;
    'rows: for row in rows {
        wide.push(widened_row(alloc, row, columns.place, columns.count)?)?;
    }
    Ok(List::from_vec(wide))
}

/// The map whose rows have so many columns put in at the place.
pub fn widened_map(alloc: Global, f: &Map, place: usize, count: usize) -> Result<Map, LinFault>
    requires inside { place ≤ f.now.width }
    requires narrow { f.now.width + count < 2 ^ 32 }
    ensures ok { IfOk result (λ wide. wide ≡ widened_map place count f.now) }
    ensures meaning { (z : Point) → IfOk result (λ wide. image_of wide z ≡ image_of f.now (without place count z)) }
    ensures cause { IfErr result (λ fault. fault ≡ Memory) }
{
    let width = f.width();
    let rows = widened_rows(alloc, f.rows(), width, &Columns { place, count })?;
    Ok(Map::new(width + count, rows))
}

/// The conjunction whose rows have so many columns put in at the place.
pub fn widened_conj(
    alloc: Global,
    conj: &Conj,
    place: usize,
    count: usize,
) -> Result<Conj, LinFault>
    requires inside { place ≤ conj.now.width }
    requires narrow { conj.now.width + count < 2 ^ 32 }
    ensures ok { IfOk result (λ wide. wide ≡ widened_conj place count conj.now) }
    ensures meaning { (z : Point) → IfOk result (λ wide. Holds wide z ↔ Holds conj.now (without place count z)) }
    ensures cause { IfErr result (λ fault. fault ≡ Memory) }
{
    let width = conj.width();
    let rows = widened_rows(alloc, conj.rows(), width, &Columns { place, count })?;
    Ok(Conj::new(width + count, rows))
}

/// The domain whose rows have so many columns put in at the place.
pub fn widened_domain(
    alloc: Global,
    d: &Domain,
    place: usize,
    count: usize,
) -> Result<Domain, LinFault>
    requires inside { place ≤ d.now.width }
    requires narrow { d.now.width + count < 2 ^ 32 }
    ensures ok { IfOk result (λ wide. wide ≡ widened_domain place count d.now) }
    ensures meaning { (z : Point) → IfOk result (λ wide. HoldsSome wide z ↔ HoldsSome d.now (without place count z)) }
    ensures cause { IfErr result (λ fault. fault ≡ Memory) }
{
    let own = d.disjuncts();
    let mut disjuncts = Vec::with_capacity(alloc, own.len())?;
    'conjs: for conj in own {
        disjuncts.push(widened_conj(alloc, conj, place, count)?)?;
    }
    Domain::of_list(d.width() + count, List::from_vec(disjuncts))
}
