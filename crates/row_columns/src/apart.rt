//! The difference of two rows, less a number.

ghost use Rattle.std.specs.Prelude.{◌≡◌, ◌-ℤ◌, slice_index_or, pos, IfOk};
ghost use Rattle.az_lin.specs.Affine.{IsEntry, HasEntries, value_at};
ghost use Rattle.az_lin.specs.Answers.{IsExactly};
ghost use Rattle.az_lin.specs.Difference.{apart_by};
ghost use Rattle.az_lin.specs.Substitution.{Point};

use az_lin::{LinFault, Row};
use smallvec::SmallVec;
use std::alloc::Global;

/// A row's coefficient, and 0 behind its last column.
fn coef_at(row: &Row, column: usize) -> i128
    ensures value { result ≡ slice_index_or row.now.coefs column (pos 0) }
    ensures range { IsEntry result }
{
    if column < row.width() {
        row.coef(column)
    } else {
        0
    }
}

/// The row that is at least 0 where the value of `left` is greater than that of `right` by at least
/// `less`. The shorter row has 0 for the columns that it lacks. `Entry` exactly where a difference
/// lies outside ±(2^60 - 1).
pub fn apart_by(alloc: Global, less: &i128, left: &Row, right: &Row) -> Result<Row, LinFault>
    requires { IsEntry less.now }
    ensures exact { IsExactly HasEntries (apart_by less.now left.now right.now) result }
    ensures meaning { (z : Point) → IfOk result (λ row. value_at row z ≡ (value_at left.now z -ℤ value_at right.now z) -ℤ less.now) }
{
    let width = left.width().max(right.width());
    let mut coefs: SmallVec<i128, 8> = SmallVec::with_capacity(alloc, width)?;
    'columns: for column in 0..width {
        coefs.push(coef_at(left, column) - coef_at(right, column))?;
    }
    Row::new(
        alloc,
        coefs.as_slice(),
        left.konst() - right.konst() - *less,
    )
}
