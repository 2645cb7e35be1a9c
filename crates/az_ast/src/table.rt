//! A table: the value of a variable at each of some points.

ghost use Rattle.std.specs.Prelude.{◌≡◌, ℤ, MatchOption, length, IfOk, IfErr};
ghost use Rattle.std.specs.List.Sorted.{IsBinarySearchResult, IsSearchInRange};
ghost use Rattle.std.specs.Ordering.{int_cmp};
ghost use Rattle.std.specs.Cmp.Lexicographic.{slice_cmp};
ghost use Rattle.az_lin.specs.declared.fault.LinFault.TheVariants as lin;
ghost use Rattle.az_ast.specs.declared.fault.ShapeFault.TheVariants.{Memory};
ghost use Rattle.az_ast.specs.Tables.{IsTable, TableGives};

use crate::ShapeFault;
use crate::copy::copied;
use az_lin::{LinFault, List, TryCopy};
use std::alloc::Global;
use std::cmp::Ordering;
use std::marker::Model;

/// Rows of a point and its value, in strictly increasing order of the points.
#[derive(Debug, Drop)]
pub struct Table {
    rows: List<(List<i128>, i64)>,
}

impl Model for Table {
    ghost use Rattle.std.specs.Coded.{coded_list, coded×, coded_ℤ};
    ghost use Rattle.az_ast.specs.Tables.{Rows, IsTable};

    ghost Value = { Rows };

    ghost coded = { coded_list (coded× (coded_list coded_ℤ) coded_ℤ) };

    ghost view = { λ table. table.rows };

    ghost invariant = { λ table. IsTable table.rows };
}

/// Where the point's row stands, or would stand.
fn place_of(rows: &[(List<i128>, i64)], point: &[i128]) -> Result<usize, usize>
    ensures bound { IsSearchInRange result (length rows.now) }
    ensures place { IsBinarySearchResult (λ row. slice_cmp int_cmp row.0 point.now) rows.now result }
{
    rows.binary_search_by(|row| compare(row, point))
}

fn compare(row: &(List<i128>, i64), point: &[i128]) -> Ordering
    ensures { result ≡ slice_cmp int_cmp row.now.0 point.now }
{
    row.0.as_slice().cmp(point)
}

fn copied_rows(
    alloc: Global,
    rows: &[(List<i128>, i64)],
) -> Result<Vec<(List<i128>, i64)>, LinFault>
    ensures ok { IfOk result (λ copies. copies.items ≡ rows.now) }
    ensures cause { IfErr result (λ fault. fault ≡ lin.Memory) }
{
    let mut copies = Vec::with_capacity(alloc, rows.len())?;
    'rows: for row in rows {
        let point = row.0.copy(alloc)?;
        copies.push((point, row.1))?;
    }
    Ok(copies)
}

impl TryCopy for Table {
    fn copy(&self, alloc: Global) -> Result<Self, LinFault> {
        let rows = copied_rows(alloc, self.rows.as_slice())?;
        Ok(Table {
            rows: List::from_vec(rows),
        })
    }
}

impl Table {
    pub fn new(rows: List<(List<i128>, i64)>) -> Table
        requires { IsTable rows }
        ensures { result ≡ rows }
    {
        Table { rows }
    }

    pub fn rows(&self) -> &[(List<i128>, i64)]
        ensures value { result.now ≡ self.now }
        ensures increasing { IsTable result.now }
    {
        self.rows.as_slice()
    }

    /// An equal table in memory of its own.
    pub fn copy(&self, alloc: Global) -> Result<Table, ShapeFault>
        ensures ok { IfOk result (λ copied. copied ≡ self.now) }
        ensures cause { IfErr result (λ fault. fault ≡ Memory) }
    {
        copied(alloc, self)
    }

    /// The value at the point, found by halving.
    pub fn value(&self, point: &[i128]) -> Option<i64>
        ensures { MatchOption result ((v : ℤ) → TableGives self.now point.now v → ⊥) (λ v. TableGives self.now point.now v) }
    {
        let rows = self.rows.as_slice();
        match place_of(rows, point) {
            Ok(place) => Some(rows[place].1),
            Err(_) => None,
        }
    }
}
