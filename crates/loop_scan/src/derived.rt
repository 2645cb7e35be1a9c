//! The rows that the elimination of columns derives, which narrow the levels of a nest.

ghost use Rattle.std.specs.Prelude.{◌≡◌, ℕ, ◌<◌, ◌≤◌, length, map, All, OnOk, IfOk, IfSome, IfErr};
ghost use Rattle.az_lin.specs.Affine.{HasWidth, HasEntries, IsAtLeastZero, IsOver, Holds};
ghost use Rattle.az_lin.specs.Substitution.{Point};
ghost use Rattle.farkas_find.specs.Remaining.{HaveColumns};
ghost use Rattle.farkas_find.specs.Rows.{affine_of, HasWideRow};
ghost use Rattle.loop_scan.specs.Nest.Nests.{IsNest, Narrows, FollowsRows};
ghost use Rattle.loop_scan.specs.declared.fault.ScanFault.TheVariants.{Memory};

use crate::ScanFault;
use crate::nest::{Nest, last_column};
use az_lin::{Conj, LinFault, List, Row};
use farkas_find::{FindFault, Left, WideRow, drop_column};
use std::alloc::Global;

/// A copy of a row, for the elimination.
fn wide(alloc: Global, row: &Row) -> Result<WideRow, ScanFault>
    ensures ok { IfOk result (λ got. affine_of got ≡ row.now) }
    ensures range { IfOk result HasWideRow }
    ensures cause { IfErr result (λ fault. fault ≡ Memory) }
{
    let coefs = List::from_vec(Vec::from_slice(alloc, row.coefs())?);
    Ok(WideRow {
        coefs,
        konst: row.konst(),
    })
}

/// Copies the row, if its columns from one on are 0.
fn keep(alloc: Global, copies: &mut Vec<WideRow>, row: &Row, end: usize) -> Result<(), ScanFault>
    ensures widths { (width : ℕ) → length row.now.coefs ≡ width → HaveColumns width copies.old.items → OnOk result (HaveColumns width copies.new.items) }
    ensures range { All HasWideRow copies.old.items → OnOk result (All HasWideRow copies.new.items) }
    ensures sound { (y : Point) → IsAtLeastZero y row.now → All (IsAtLeastZero y) (map affine_of copies.old.items) → OnOk result (All (IsAtLeastZero y) (map affine_of copies.new.items)) }
    ensures cause { IfErr result (λ fault. fault ≡ Memory) }
{
    match last_column(row.coefs()) {
        Some(last) if last >= end => Ok(()),
        _ => {
            copies.push(wide(alloc, row)?)?;
            Ok(())
        }
    }
}

/// Copies of the rows whose columns from one on are 0.
fn wide_rows(
    alloc: Global,
    rows: &[Row],
    width: usize,
    end: usize,
) -> Result<List<WideRow>, ScanFault>
    requires widths { All (HasWidth width) rows.now }
    ensures widths { IfOk result (HaveColumns width) }
    ensures range { IfOk result (All HasWideRow) }
    ensures sound { (y : Point) → All (IsAtLeastZero y) rows.now → IfOk result (λ got. All (IsAtLeastZero y) (map affine_of got)) }
    ensures cause { IfErr result (λ fault. fault ≡ Memory) }
{
    let mut copies = Vec::new(alloc);
    'rows: for row in rows {
        keep(alloc, &mut copies, row, end)?;
    }
    Ok(List::from_vec(copies))
}

/// The row as it is stored, if its entries are in range.
fn stored(alloc: Global, row: &WideRow) -> Result<Option<Row>, ScanFault>
    ensures ok { IfOk result (λ got. IfSome got (λ row'. row' ≡ affine_of row.now)) }
    ensures cause { IfErr result (λ fault. fault ≡ Memory) }
{
    match Row::new(alloc, row.coefs.as_slice(), row.konst) {
        Ok(row) => Ok(Some(row)),
        Err(LinFault::Entry) => Ok(None),
        Err(LinFault::Memory) => Err(ScanFault::Memory),
        Err(_) => unreachable!(),
    }
}

/// The rows of the next stage, without the column; none where the rows refute the system. A stage
/// that can't be made is left out, and the given rows without the columns from it on come instead.
fn stage_after(
    alloc: Global,
    rows: List<WideRow>,
    given: &[Row],
    width: usize,
    column: usize,
) -> Result<Option<List<WideRow>>, ScanFault>
    requires columns { HaveColumns width rows }
    requires range { All HasWideRow rows }
    requires given { All (HasWidth width) given.now }
    requires inside { column < width }
    requires narrow { width ≤ 64 }
    ensures ok { IfOk result (FollowsRows width given.now rows) }
    ensures cause { IfErr result (λ fault. fault ≡ Memory) }
{
    match drop_column(alloc, rows, column as u32) {
        Ok(Left::Rows(left)) => Ok(Some(left)),
        Ok(Left::Contradiction) => Ok(None),
        Err(FindFault::Memory) => Err(ScanFault::Memory),
        Err(_) => Ok(Some(wide_rows(alloc, given, width, column)?)),
    }
}

impl Nest {
    /// Whether the level has no bound yet that is as strong as the row.
    fn wants(&self, row: &WideRow, column: usize) -> bool {
        let coefs = row.coefs.as_slice();
        match self.levels.get(column) {
            Some(level) => last_column(coefs) == Some(column) && !level.implies(coefs, row.konst),
            None => false,
        }
    }

    /// Adds the row, if it bounds this index and says something new.
    fn add_new(
        &mut self,
        alloc: Global,
        row: &WideRow,
        width: usize,
        column: usize,
    ) -> Result<(), ScanFault>
        requires state { IsNest width self.old }
        requires width { length row.now.coefs ≡ width }
        ensures state { OnOk result (IsNest width self.new) }
        ensures points { (y : Point) → length y ≡ width → OnOk result (Narrows (IsAtLeastZero y (affine_of row.now)) self.old self.new y) }
        ensures cause { IfErr result (λ fault. fault ≡ Memory) }
    {
        if !self.wants(row, column) {
            return Ok(());
        }
        match stored(alloc, row)? {
            Some(row) => self.add(alloc, width, &row),
            None => Ok(()),
        }
    }

    /// Adds those rows that bound this index and say something new.
    fn add_derived(
        &mut self,
        alloc: Global,
        rows: &[WideRow],
        width: usize,
        column: usize,
    ) -> Result<(), ScanFault>
        requires state { IsNest width self.old }
        requires widths { HaveColumns width rows.now }
        ensures state { OnOk result (IsNest width self.new) }
        ensures points { (y : Point) → length y ≡ width → OnOk result (Narrows (All (IsAtLeastZero y) (map affine_of rows.now)) self.old self.new y) }
        ensures cause { IfErr result (λ fault. fault ≡ Memory) }
    {
        'rows: for row in rows {
            self.add_new(alloc, row, width, column)?;
        }
        Ok(())
    }

    /// Eliminates the columns from the last to the second. The rows of each stage narrow the level
    /// of the index before.
    pub(crate) fn narrow(
        &mut self,
        alloc: Global,
        system: &Conj,
        width: usize,
    ) -> Result<(), ScanFault>
        requires state { IsNest width self.old }
        requires over { IsOver width system.now }
        requires columns { width ≤ 64 }
        ensures state { OnOk result (IsNest width self.new) }
        ensures points { (y : Point) → length y ≡ width → OnOk result (Narrows (Holds system.now y) self.old self.new y) }
        ensures cause { IfErr result (λ fault. fault ≡ Memory) }
    {
        let given = system.rows();
        let mut rows = wide_rows(alloc, given, width, width)?;
        let mut column = width;
        while column > 1 {
            column -= 1;
            let Some(left) = stage_after(alloc, rows, given, width, column)? else {
                self.refuted = true;
                return Ok(());
            };
            rows = left;
            self.add_derived(alloc, rows.as_slice(), width, column - 1)?;
        }
        Ok(())
    }
}
