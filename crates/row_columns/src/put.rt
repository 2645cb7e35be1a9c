//! Parameters that are put in for the first columns.

ghost use Rattle.std.specs.Prelude.{◌≡◌, ◌++◌, ◌≤◌, ◌↔◌, length, map, All, IfOk};
ghost use Rattle.az_lin.specs.Affine.{IsEntry, HasEntries, HasWidth, HasEntryConj, HasEntryDomain, Holds, HoldsSome, value_at, image_of};
ghost use Rattle.az_lin.specs.Answers.{IsExactly};
ghost use Rattle.az_lin.specs.Columns.{at_params, map_at_params, conj_at_params, domain_at_params};
ghost use Rattle.az_lin.specs.Substitution.{Point, HasEntryRows};

use az_lin::{Conj, Domain, LinFault, List, Map, Row};
use std::alloc::Global;

/// The row over the other columns, with these numbers put in for the first. `Entry` exactly where
/// the new constant lies outside ±(2^60 - 1).
pub fn row_at_params(alloc: Global, row: &Row, params: &[i128]) -> Result<Row, LinFault>
    requires inside { length params.now ≤ length row.now.coefs }
    requires narrow { length params.now ≤ 64 }
    requires range { All IsEntry params.now }
    ensures exact { IsExactly HasEntries (at_params params.now row.now) result }
    ensures meaning { (z : Point) → IfOk result (λ put. value_at put z ≡ value_at row.now (params.now ++ z)) }
{
    Row::new(
        alloc,
        &row.coefs()[params.len()..],
        row.value_at_params(params),
    )
}

fn rows_at_params(
    alloc: Global,
    rows: &[Row],
    width: usize,
    params: &[i128],
) -> Result<List<Row>, LinFault>
    requires widths { All (HasWidth width) rows.now }
    requires inside { length params.now ≤ width }
    requires narrow { length params.now ≤ 64 }
    requires range { All IsEntry params.now }
    ensures { IsExactly (All HasEntries) (map (λ row. at_params params.now row) rows.now) result }
{
    let mut put = Vec::with_capacity(alloc, rows.len())?;
    'rows: for row in rows {
        put.push(row_at_params(alloc, row, params)?)?;
    }
    Ok(List::from_vec(put))
}

/// The map over the other coordinates, with these numbers put in for the first.
pub fn map_at_params(alloc: Global, f: &Map, params: &[i128]) -> Result<Map, LinFault>
    requires inside { length params.now ≤ f.now.width }
    requires narrow { length params.now ≤ 64 }
    requires range { All IsEntry params.now }
    ensures exact { IsExactly HasEntryRows (map_at_params params.now f.now) result }
    ensures meaning { (z : Point) → IfOk result (λ put. image_of put z ≡ image_of f.now (params.now ++ z)) }
{
    let width = f.width();
    let rows = rows_at_params(alloc, f.rows(), width, params)?;
    Ok(Map::new(width - params.len(), rows))
}

/// The conjunction over the other coordinates, with these numbers put in for the first.
pub fn conj_at_params(alloc: Global, conj: &Conj, params: &[i128]) -> Result<Conj, LinFault>
    requires inside { length params.now ≤ conj.now.width }
    requires narrow { length params.now ≤ 64 }
    requires range { All IsEntry params.now }
    ensures exact { IsExactly HasEntryConj (conj_at_params params.now conj.now) result }
    ensures meaning { (z : Point) → IfOk result (λ put. Holds put z ↔ Holds conj.now (params.now ++ z)) }
{
    let width = conj.width();
    let rows = rows_at_params(alloc, conj.rows(), width, params)?;
    Ok(Conj::new(width - params.len(), rows))
}

/// The domain over the other coordinates, with these numbers put in for the first.
pub fn domain_at_params(alloc: Global, d: &Domain, params: &[i128]) -> Result<Domain, LinFault>
    requires inside { length params.now ≤ d.now.width }
    requires narrow { length params.now ≤ 64 }
    requires range { All IsEntry params.now }
    ensures exact { IsExactly HasEntryDomain (domain_at_params params.now d.now) result }
    ensures meaning { (z : Point) → IfOk result (λ put. HoldsSome put z ↔ HoldsSome d.now (params.now ++ z)) }
{
    let own = d.disjuncts();
    let mut disjuncts = Vec::with_capacity(alloc, own.len())?;
    'conjs: for conj in own {
        disjuncts.push(conj_at_params(alloc, conj, params)?)?;
    }
    Domain::of_list(d.width() - params.len(), List::from_vec(disjuncts))
}
