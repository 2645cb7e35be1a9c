//! Which rows of a stage say something that no other row says.

ghost use Rattle.std.specs.Prelude.{◌≡◌, ◌<◌, length, map, IfOk};
ghost use Rattle.std.specs.List.{list_any, range_with_len};
ghost use Rattle.farkas_find.specs.Tidying.{row_at, is_constant, is_refuting, is_at_least_as_strong, is_stronger, stays, strongest};

use crate::numbered::Numbered;
use crate::winners::winning_flags;
use std::alloc::{AllocError, Global};

/// Whether no coefficient is nonzero.
#[tactic(auto, unfolding(crate::specs::Tidying::is_constant))]
pub(crate) fn is_constant(it: &Numbered) -> bool
    ensures { result ≡ is_constant it.now }
{
    it.row.coefs().iter().all(|coef| *coef == 0)
}

#[tactic(auto, unfolding(crate::specs::Tidying::is_refuting))]
pub(crate) fn is_refuting(it: &Numbered) -> bool
    ensures { result ≡ is_refuting it.now }
{
    is_constant(it) && it.row.konst() < 0
}

/// Whether the other row says what this one says, and perhaps more.
#[tactic(auto, unfolding(crate::specs::Tidying::is_at_least_as_strong))]
fn is_at_least_as_strong(it: &Numbered, other: &Numbered) -> bool
    ensures { result ≡ is_at_least_as_strong it.now other.now }
{
    other.row.konst() <= it.row.konst() && other.row.coefs() == it.row.coefs()
}

/// Whether the other row says what this one says, and more.
#[tactic(auto, unfolding(crate::specs::Tidying::is_stronger))]
fn is_stronger(it: &Numbered, other: &Numbered) -> bool
    ensures { result ≡ is_stronger it.now other.now }
{
    other.row.konst() < it.row.konst() && other.row.coefs() == it.row.coefs()
}

fn any_as_strong(it: &Numbered, others: &[Numbered]) -> bool
    ensures { result ≡ list_any (is_at_least_as_strong it.now) others.now }
{
    others.iter().any(|other| is_at_least_as_strong(it, other))
}

fn any_stronger(it: &Numbered, others: &[Numbered]) -> bool
    ensures { result ≡ list_any (is_stronger it.now) others.now }
{
    others.iter().any(|other| is_stronger(it, other))
}

/// Whether tidying leaves the row at this place.
#[tactic(auto, unfolding(crate::specs::Tidying::stays))]
fn stays(rows: &[Numbered], place: usize) -> bool
    requires { place < length rows.now }
    ensures { result ≡ stays rows.now place }
{
    let it = &rows[place];
    !is_constant(it) && !any_as_strong(it, &rows[..place]) && !any_stronger(it, &rows[place + 1..])
}

/// The most rows that are compared each with each. A map finds equal coefficients where there are more.
const FEW_ROWS: usize = 16;

/// For each place, whether tidying leaves its row.
fn flags_by_pairs(alloc: Global, rows: &[Numbered]) -> Result<Vec<bool>, AllocError>
    ensures { IfOk result (λ got. got.items ≡ map (stays rows.now) (range_with_len 0 (length rows.now))) }
{
    let mut flags = Vec::with_capacity(alloc, rows.len())?;
    'places: for place in 0..rows.len() {
        flags.push(stays(rows, place))?;
    }
    Ok(flags)
}

fn flags(alloc: Global, rows: &[Numbered]) -> Result<Vec<bool>, AllocError>
    ensures { IfOk result (λ got. got.items ≡ map (stays rows.now) (range_with_len 0 (length rows.now))) }
{
    if rows.len() <= FEW_ROWS {
        flags_by_pairs(alloc, rows)
    } else {
        winning_flags(alloc, rows)
    }
}

/// The rows that tidying leaves, where they are rounded already.
#[tactic(auto, unfolding(crate::specs::Tidying::strongest))]
pub(crate) fn strongest(alloc: Global, rows: Vec<Numbered>) -> Result<Vec<Numbered>, AllocError>
    ensures { IfOk result (λ got. got.items ≡ strongest rows.items) }
{
    let flags = flags(alloc, rows.as_slice())?;
    let mut left = Vec::with_capacity(alloc, rows.len())?;
    'rows: for (row, stays) in rows.into_iter().zip(flags.into_iter()) {
        if stays {
            left.push(row)?;
        }
    }
    Ok(left)
}
