//! Which rows a stage combines.

ghost use Rattle.std.specs.Prelude.{◌≡◌, ◌<◌, ◌++◌, length, map, All, IfOk, OnOk};
ghost use Rattle.farkas_find.specs.Tidying.{coef_at};
ghost use Rattle.farkas_find.specs.Combining.{HaveWidth, IsPair, has_sign, places_where, pairs_of, all_pairs, pairs_with, is_other, partner};

use crate::choice::Pair;
use crate::numbered::{Numbered, at};
use std::alloc::{AllocError, Global};

/// The places of the rows that are positive in the column, or else negative.
fn places_with(
    alloc: Global,
    column: usize,
    positive: bool,
    rows: &[Numbered],
    width: usize,
) -> Result<Vec<usize>, AllocError>
    requires inside { column < width }
    requires widths { HaveWidth width rows.now }
    ensures { IfOk result (λ got. got.items ≡ places_where (λ it. has_sign positive (coef_at column it)) rows.now) }
{
    let mut places = Vec::new(alloc);
    'places: for place in 0..rows.len() {
        if at(rows, place).has_sign(column, positive) {
            places.push(place)?;
        }
    }
    Ok(places)
}

/// Adds the pairs of one row with each of others.
fn push_pairs(pairs: &mut Vec<Pair>, plus: usize, minuses: &[usize]) -> Result<(), AllocError>
    ensures { OnOk result (pairs.new.items ≡ pairs.old.items ++ pairs_of minuses.now plus) }
{
    'minuses: for minus in minuses {
        pairs.push(Pair {
            plus,
            minus: *minus,
        })?;
    }
    Ok(())
}

/// Each row that is positive in the column with each that is negative there.
#[tactic(auto, unfolding(crate::specs::Combining::all_pairs))]
pub(crate) fn all_pairs(
    alloc: Global,
    column: usize,
    rows: &[Numbered],
    width: usize,
) -> Result<Vec<Pair>, AllocError>
    requires inside { column < width }
    requires widths { HaveWidth width rows.now }
    ensures { IfOk result (λ got. got.items ≡ all_pairs column rows.now) }
{
    let pluses = places_with(alloc, column, true, rows, width)?;
    let minuses = places_with(alloc, column, false, rows, width)?;
    let mut pairs = Vec::with_capacity(alloc, pluses.len())?;
    'pluses: for plus in &pluses {
        push_pairs(&mut pairs, *plus, minuses.as_slice())?;
    }
    Ok(pairs)
}

/// Whether a row other than those of the chosen pair has the column.
#[tactic(auto, unfolding(crate::specs::Combining::is_other))]
fn is_other(column: usize, chosen: &Pair, rows: &[Numbered], place: usize, width: usize) -> bool
    requires inside { column < width }
    requires widths { HaveWidth width rows.now }
    requires there { place < length rows.now }
    ensures { result ≡ is_other column chosen.now rows.now place }
{
    at(rows, place).has(column) && !(place == chosen.plus || place == chosen.minus)
}

#[tactic(auto, unfolding(crate::specs::Combining::partner))]
fn partner(column: usize, chosen: &Pair, rows: &[Numbered], place: usize, width: usize) -> Pair
    requires inside { column < width }
    requires widths { HaveWidth width rows.now }
    requires there { place < length rows.now }
    ensures { result ≡ partner column chosen.now rows.now place }
{
    if at(rows, place).is_positive(column) {
        Pair {
            plus: place,
            minus: chosen.minus,
        }
    } else {
        Pair {
            plus: chosen.plus,
            minus: place,
        }
    }
}

/// Each other row that has the column, with the row of the chosen pair that has the opposite sign.
#[tactic(auto, unfolding(crate::specs::Combining::pairs_with))]
pub(crate) fn pairs_with(
    alloc: Global,
    column: usize,
    chosen: &Pair,
    rows: &[Numbered],
    width: usize,
) -> Result<Vec<Pair>, AllocError>
    requires inside { column < width }
    requires widths { HaveWidth width rows.now }
    ensures { IfOk result (λ got. got.items ≡ pairs_with column chosen.now rows.now) }
{
    let mut pairs = Vec::new(alloc);
    'places: for place in 0..rows.len() {
        if is_other(column, chosen, rows, place, width) {
            pairs.push(partner(column, chosen, rows, place, width))?;
        }
    }
    Ok(pairs)
}
