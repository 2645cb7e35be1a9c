//! Rows whose exact negatives are there.

ghost use Rattle.std.specs.Prelude.{◌≡◌, ◌<◌, length, map, All, IfOk, neg_ℤ};
ghost use Rattle.std.specs.List.{range_with_len};
ghost use Rattle.std.specs.Ordering.{int_eq};
ghost use Rattle.std.specs.Cmp.Lexicographic.{pointwise};
ghost use Rattle.az_lin.specs.Affine.{IsWide};
ghost use Rattle.farkas_find.specs.Choosing.{is_negative_of, negative_place};

use crate::numbered::{Numbered, at};
use std::alloc::{AllocError, Global};

fn is_negative_number(number: &i128, other: &i128) -> bool
    requires number { IsWide number.now }
    requires other { IsWide other.now }
    ensures { result ≡ int_eq number.now (neg_ℤ other.now) }
{
    *number == -*other
}

/// Whether each number is the negative of the other list's number there.
fn are_negatives(numbers: &[i128], others: &[i128]) -> bool
    requires numbers { All IsWide numbers.now }
    requires others { All IsWide others.now }
    ensures { result ≡ pointwise (λ x y. int_eq x (neg_ℤ y)) numbers.now others.now }
{
    if numbers.len() != others.len() {
        return false;
    }
    'columns: for column in 0..numbers.len() {
        if !is_negative_number(&numbers[column], &others[column]) {
            return false;
        }
    }
    true
}

/// Whether the other row has the negative of every entry.
#[tactic(auto, unfolding(crate::specs::Choosing::is_negative_of))]
fn is_negative_of(it: &Numbered, other: &Numbered) -> bool
    ensures { result ≡ is_negative_of it.now other.now }
{
    other.row.konst() == -it.row.konst() && are_negatives(other.row.coefs(), it.row.coefs())
}

/// The place of the first exact negative of a row.
#[tactic(auto, unfolding(crate::specs::Choosing::negative_place))]
fn negative_place(rows: &[Numbered], place: usize) -> Option<usize>
    requires { place < length rows.now }
    ensures { result ≡ negative_place rows.now place }
{
    let it = at(rows, place);
    rows.iter().position(|other| is_negative_of(it, other))
}

/// For each place, where the exact negative of its row is.
pub(crate) fn negative_places(
    alloc: Global,
    rows: &[Numbered],
) -> Result<Vec<Option<usize>>, AllocError>
    ensures { IfOk result (λ got. got.items ≡ map (negative_place rows.now) (range_with_len 0 (length rows.now))) }
{
    let mut places = Vec::with_capacity(alloc, rows.len())?;
    'places: for place in 0..rows.len() {
        places.push(negative_place(rows, place))?;
    }
    Ok(places)
}
