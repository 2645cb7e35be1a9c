//! How many rows and pairs of rows a stage has, without making them.

ghost use Rattle.std.specs.Prelude.{◌≡◌, ◌*◌, ◌<◌, ◌≤◌, length, not, count_by};
ghost use Rattle.farkas_find.specs.Tidying.{coef_at, is_zero};
ghost use Rattle.farkas_find.specs.Combining.{HaveWidth, has_sign, all_pairs};
ghost use Rattle.farkas_find.specs.Choosing.{count_with};
ghost use Rattle.farkas_find.specs.Stages.{HasFew, rows_without};

use crate::numbered::Numbered;

/// How many rows are positive in the column, or else negative.
pub(crate) fn count_with(positive: bool, column: usize, rows: &[Numbered], width: usize) -> usize
    requires inside { column < width }
    requires widths { HaveWidth width rows.now }
    ensures value { result ≡ count_with positive column rows.now }
    ensures bound { result ≤ length rows.now }
{
    rows.iter()
        .filter(|it| it.has_sign(column, positive))
        .count()
}

pub(crate) fn pairs_of_counts(pluses: usize, minuses: usize) -> usize
    requires pluses { pluses ≤ 20000 }
    requires minuses { minuses ≤ 20000 }
    ensures { result ≡ pluses * minuses }
{
    pluses * minuses
}

/// How many rows have the column.
fn count_having(column: usize, rows: &[Numbered], width: usize) -> usize
    requires inside { column < width }
    requires widths { HaveWidth width rows.now }
    ensures value { result ≡ count_by (λ it. not (is_zero (coef_at column it))) rows.now }
    ensures bound { result ≤ length rows.now }
{
    rows.iter().filter(|it| it.has(column)).count()
}

/// How many rows are without the column.
pub(crate) fn count_without(column: usize, rows: &[Numbered], width: usize) -> usize
    requires inside { column < width }
    requires widths { HaveWidth width rows.now }
    ensures value { result ≡ length (rows_without column rows.now) }
    ensures bound { result ≤ length rows.now }
{
    rows.len() - count_having(column, rows, width)
}

/// How many pairs all rows with the column give.
pub(crate) fn count_all_pairs(column: usize, rows: &[Numbered], width: usize) -> usize
    requires inside { column < width }
    requires widths { HaveWidth width rows.now }
    requires few { HasFew rows.now }
    ensures { result ≡ length (all_pairs column rows.now) }
{
    let pluses = count_with(true, column, rows, width);
    let minuses = count_with(false, column, rows, width);
    pairs_of_counts(pluses, minuses)
}
