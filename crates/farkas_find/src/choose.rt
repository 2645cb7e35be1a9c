//! Choosing the column that a stage eliminates.

ghost use Rattle.std.specs.Prelude.{◌≡◌, ◌*◌, ◌<◌, ◌≤◌, length, map, All, IfOk, count_by};
ghost use Rattle.std.specs.List.{range_with_len};
ghost use Rattle.std.specs.Option.{option_map};
ghost use Rattle.farkas_find.specs.Tidying.{coef_at};
ghost use Rattle.farkas_find.specs.Combining.{HaveWidth, has_sign};
ghost use Rattle.farkas_find.specs.Answers.{choice_in};
ghost use Rattle.farkas_find.specs.Fewest.{HasFewest};
ghost use Rattle.farkas_find.specs.Choosing.{negative_place, oriented, pair_at, pair_in, choice_by_pair, count_with, is_free, free_columns, column_by_count, choice_of, better_of, count_of_best};

use crate::choice::{Choice, Pair};
use crate::counting::{count_with, pairs_of_counts};
use crate::negative::negative_places;
use crate::numbered::{Numbered, at};
use std::alloc::{AllocError, Global};

/// Whether the column may go.
fn is_free(kept: Option<usize>, column: usize) -> bool
    ensures { result ≡ is_free kept column }
{
    match kept {
        None => true,
        Some(kept) => column != kept,
    }
}

#[tactic(auto, unfolding(crate::specs::Choosing::oriented))]
fn oriented(column: usize, rows: &[Numbered], place: usize, other: usize, width: usize) -> Pair
    requires inside { column < width }
    requires widths { HaveWidth width rows.now }
    requires there { place < length rows.now }
    ensures { result ≡ oriented column rows.now place other }
{
    if at(rows, place).is_positive(column) {
        Pair {
            plus: place,
            minus: other,
        }
    } else {
        Pair {
            plus: other,
            minus: place,
        }
    }
}

/// The pair of a row and its exact negative, if the row has the column.
#[tactic(auto, unfolding(crate::specs::Choosing::pair_at))]
fn pair_at(
    column: usize,
    rows: &[Numbered],
    place: usize,
    negative: Option<usize>,
    width: usize,
) -> Option<Pair>
    requires inside { column < width }
    requires widths { HaveWidth width rows.now }
    requires there { place < length rows.now }
    requires negative { negative ≡ negative_place rows.now place }
    ensures { result ≡ pair_at column rows.now place }
{
    if !at(rows, place).has(column) {
        return None;
    }
    match negative {
        None => None,
        Some(other) => Some(oriented(column, rows, place, other, width)),
    }
}

/// The first row with the column whose exact negative is there, and that negative.
#[tactic(auto, unfolding(crate::specs::Choosing::pair_in))]
fn pair_in(
    column: usize,
    rows: &[Numbered],
    negatives: &[Option<usize>],
    width: usize,
) -> Option<Pair>
    requires inside { column < width }
    requires widths { HaveWidth width rows.now }
    requires negatives { negatives.now ≡ map (negative_place rows.now) (range_with_len 0 (length rows.now)) }
    ensures { result ≡ pair_in column rows.now }
{
    'places: for place in 0..rows.len() {
        let pair = pair_at(column, rows, place, negatives[place], width);
        if pair.is_some() {
            return pair;
        }
    }
    None
}

/// The lowest column that has such a pair.
#[tactic(auto, unfolding(crate::specs::Choosing::choice_by_pair, crate::specs::Choosing::free_columns))]
fn choice_by_pair(
    kept: Option<usize>,
    rows: &[Numbered],
    negatives: &[Option<usize>],
    width: usize,
) -> Option<Choice>
    requires widths { HaveWidth width rows.now }
    requires negatives { negatives.now ≡ map (negative_place rows.now) (range_with_len 0 (length rows.now)) }
    ensures { result ≡ choice_by_pair (free_columns kept width) rows.now }
{
    'columns: for column in 0..width {
        if is_free(kept, column) {
            let pair = pair_in(column, rows, negatives, width);
            if pair.is_some() {
                return Some(Choice { column, pair });
            }
        }
    }
    None
}

/// The best column so far, and for how many pairs it stands.
#[derive(Debug, Clone, Copy)]
struct Best {
    column: Option<usize>,
    pairs: usize,
}

/// The better of the best column so far and one more.
fn better_of(best: Best, column: usize, rows: &[Numbered], width: usize) -> Best
    requires inside { column < width }
    requires widths { HaveWidth width rows.now }
    requires few { length rows.now ≤ 20000 }
    requires pairs { best.pairs ≡ count_of_best best.column rows.now }
    ensures column { result.column ≡ better_of rows.now best.column column }
    ensures pairs { result.pairs ≡ count_of_best result.column rows.now }
{
    let pluses = count_with(true, column, rows, width);
    let minuses = count_with(false, column, rows, width);
    let pairs = pairs_of_counts(pluses, minuses);
    if pluses + minuses == 0 {
        return best;
    }
    match best.column {
        Some(_) if best.pairs <= pairs => best,
        _ => Best {
            column: Some(column),
            pairs,
        },
    }
}

/// The free column for which the fewest pairs are combined, the lowest on ties.
#[tactic(auto, unfolding(crate::specs::Choosing::column_by_count, crate::specs::Choosing::free_columns))]
fn column_by_count(kept: Option<usize>, rows: &[Numbered], width: usize) -> Option<usize>
    requires widths { HaveWidth width rows.now }
    requires few { length rows.now ≤ 20000 }
    ensures value { result ≡ column_by_count (free_columns kept width) rows.now }
    ensures fewest { HasFewest (free_columns kept width) rows.now result }
{
    let mut best = Best {
        column: None,
        pairs: 0,
    };
    'columns: for column in 0..width {
        if is_free(kept, column) {
            best = better_of(best, column, rows, width);
        }
    }
    best.column
}

/// The column that goes, if a row has a free column.
#[tactic(auto, unfolding(crate::specs::Choosing::choice_of))]
pub(crate) fn choice_of(
    alloc: Global,
    kept: Option<usize>,
    rows: &[Numbered],
    width: usize,
) -> Result<Option<Choice>, AllocError>
    requires widths { HaveWidth width rows.now }
    requires few { length rows.now ≤ 20000 }
    ensures { IfOk result (λ got. got ≡ choice_of (free_columns kept width) rows.now) }
{
    let negatives = negative_places(alloc, rows)?;
    let by_pair = choice_by_pair(kept, rows, negatives.as_slice(), width);
    if by_pair.is_some() {
        return Ok(by_pair);
    }
    match column_by_count(kept, rows, width) {
        Some(column) => Ok(Some(Choice { column, pair: None })),
        None => Ok(None),
    }
}

/// One column as a choice, with the pair in it if there is one.
#[tactic(auto, unfolding(crate::specs::Answers::choice_in))]
pub(crate) fn choice_in(
    alloc: Global,
    column: usize,
    rows: &[Numbered],
    width: usize,
) -> Result<Choice, AllocError>
    requires inside { column < width }
    requires widths { HaveWidth width rows.now }
    ensures { IfOk result (λ choice. choice ≡ choice_in column rows.now) }
{
    let negatives = negative_places(alloc, rows)?;
    let pair = pair_in(column, rows, negatives.as_slice(), width);
    Ok(Choice { column, pair })
}
