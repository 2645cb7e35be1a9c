//! Single stages, for callers that choose the columns themselves, and the stages down to one column.

ghost use Rattle.std.specs.Prelude.{ℕ, ◌≡◌, ◌<◌, ◌≤◌, length, All, map, IfOk, Some};
ghost use Rattle.az_lin.specs.Affine.{IsAtLeastZero, Holds};
ghost use Rattle.az_lin.specs.Substitution.{Point};
ghost use Rattle.farkas_find.specs.Combining.{HaveWidth};
ghost use Rattle.farkas_find.specs.Rows.{affine_of, HasWideRow, HaveOneWidth};
ghost use Rattle.farkas_find.specs.Choosing.{free_columns};
ghost use Rattle.farkas_find.specs.Stages.{given_rows};
ghost use Rattle.farkas_find.specs.Answers.{TidyAnswers, DropAnswers, RangeAnswers, HoldsIn, HasOnly};
ghost use Rattle.farkas_find.specs.OneAnswer.{LeftOver, Agrees};
ghost use Rattle.farkas_find.specs.Remaining.{HaveColumns, KeepsWidth, KeepsOneWidth, KeepsRange, Lacks, HasNoTwins};

use crate::range::range_given;
use crate::single::{drop_given, tidy_given};
use crate::stored::stored_rows;
use crate::wide::given_rows;
use crate::{FindFault, Left, WideRow};
use az_lin::{Conj, List};
use std::alloc::Global;

/// Rounds the rows and leaves out those that say nothing more than another row.
pub fn tidy(alloc: Global, rows: List<WideRow>) -> Result<Left, FindFault>
    requires widths { HaveOneWidth rows }
    requires range { All HasWideRow rows }
    ensures exact { TidyAnswers (given_rows (map affine_of rows)) result }
    ensures only { (other : LeftOver) → TidyAnswers (given_rows (map affine_of rows)) other → Agrees result other }
    ensures sound { (z : Point) → IfOk result (λ left. All (IsAtLeastZero z) (map affine_of rows) → HoldsIn z left) }
    ensures back { (z : Point) → IfOk result (λ left. HoldsIn z left → All (IsAtLeastZero z) (map affine_of rows)) }
    ensures unique { IfOk result HasNoTwins }
    ensures widths { (width : ℕ) → HaveColumns width rows → IfOk result (KeepsWidth width) }
    ensures one_width { IfOk result KeepsOneWidth }
    ensures range { IfOk result KeepsRange }
{
    let given = given_rows(alloc, rows.as_slice())?;
    tidy_given(alloc, given)
}

/// The common width of the rows, which is above the column.
fn width_above(rows: &[WideRow], column: usize) -> usize
    requires small { column < 4294967296 }
    requires widths { HaveOneWidth rows.now }
    requires inside { All (λ row. column < length row.coefs) rows.now }
    ensures widths { All (λ row. length row.coefs ≡ result) rows.now }
    ensures inside { column < result }
{
    match rows.first() {
        Some(row) => row.coefs.len(),
        None => column + 1,
    }
}

/// Tidies the rows, and eliminates the column from them: by a row and its exact negative if there are such, and
/// else by all pairs of rows with opposite signs.
pub fn drop_column(alloc: Global, rows: List<WideRow>, column: u32) -> Result<Left, FindFault>
    requires widths { HaveOneWidth rows }
    requires range { All HasWideRow rows }
    requires inside { All (λ row. column < length row.coefs) rows }
    ensures exact { DropAnswers column (given_rows (map affine_of rows)) result }
    ensures only { (other : LeftOver) → DropAnswers column (given_rows (map affine_of rows)) other → Agrees result other }
    ensures sound { (z : Point) → IfOk result (λ left. All (IsAtLeastZero z) (map affine_of rows) → HoldsIn z left) }
    ensures gone { IfOk result (Lacks column) }
    ensures widths { (width : ℕ) → HaveColumns width rows → IfOk result (KeepsWidth width) }
    ensures one_width { IfOk result KeepsOneWidth }
    ensures range { IfOk result KeepsRange }
{
    let width = width_above(rows.as_slice(), column as usize);
    let given = given_rows(alloc, rows.as_slice())?;
    drop_given(alloc, given, column as usize, width)
}

/// Goes through the stages with every column but the given one.
pub fn range_rows(alloc: Global, system: &Conj, column: u32) -> Result<Left, FindFault>
    requires inside { column < system.now.width }
    requires narrow { system.now.width ≤ 4096 }
    ensures exact { RangeAnswers (free_columns (Some column) system.now.width) (given_rows system.now.rows) result }
    ensures only { (other : LeftOver) → RangeAnswers (free_columns (Some column) system.now.width) (given_rows system.now.rows) other → Agrees result other }
    ensures sound { (z : Point) → IfOk result (λ left. Holds system.now z → HoldsIn z left) }
    ensures alone { IfOk result (λ left. HasOnly system.now.width column left) }
    ensures widths { IfOk result (KeepsWidth system.now.width) }
    ensures range { IfOk result KeepsRange }
{
    let given = stored_rows(alloc, system.rows())?;
    range_given(alloc, given, column as usize, system.width())
}
