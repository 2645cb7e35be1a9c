//! The strongest rows of a large stage, by a map from coefficients to places.

ghost use Rattle.std.specs.Prelude.{◌≡◌, ◌<◌, ◌+◌, ◌&&◌, not, length, map, IfOk, OnOk};
ghost use Rattle.std.specs.List.{range_with_len};
ghost use Rattle.farkas_find.specs.Tidying.{stays};
ghost use Rattle.farkas_find.specs.Inner.Winners.{AreWinners, IsInside, konst_at, is_as_strong, is_found};

use crate::duplicates::is_constant;
use crate::numbered::{Numbered, at};
use std::alloc::{AllocError, Global};
use std::collections::HashMap;

/// Where the first of the strongest rows stands of those with these coefficients.
type Winners<'a> = HashMap<&'a [i128], usize>;

/// Whether the row that was found has at most the constant of the row at this place.
fn is_as_strong(rows: &[Numbered], best: Option<usize>, place: usize) -> bool
    requires found { IsInside rows.now best }
    requires there { place < length rows.now }
    ensures { result ≡ is_as_strong rows.now best (konst_at rows.now place) }
{
    match best {
        Some(best) => at(rows, best).row.konst() <= at(rows, place).row.konst(),
        None => false,
    }
}

/// Takes the row at a place in, where the rows before it are in.
fn take_in<'a>(
    winners: &mut Winners<'a>,
    rows: &'a [Numbered],
    place: usize,
) -> Result<(), AllocError>
    requires there { place < length rows.now }
    requires before { AreWinners rows.now place winners.old }
    ensures { OnOk result (AreWinners rows.now (place + 1) winners.new) }
{
    let coefs = at(rows, place).row.coefs();
    let best = winners.get(&coefs).copied();
    if is_as_strong(rows, best, place) {
        return Ok(());
    }
    winners.insert(coefs, place)?;
    Ok(())
}

fn winners_of<'a>(alloc: Global, rows: &'a [Numbered]) -> Result<Winners<'a>, AllocError>
    ensures { IfOk result (λ winners. AreWinners rows.now (length rows.now) winners) }
{
    let mut winners = HashMap::new(alloc);
    'places: for place in 0..rows.len() {
        take_in(&mut winners, rows, place)?;
    }
    Ok(winners)
}

fn is_left(is_constant: bool, winner: Option<usize>, place: usize) -> bool
    ensures { result ≡ (not is_constant && is_found winner place) }
{
    match winner {
        Some(winner) => !is_constant && winner == place,
        None => false,
    }
}

/// Whether tidying leaves the row at this place.
fn wins(winners: &Winners<'_>, rows: &[Numbered], place: usize) -> bool
    requires there { place < length rows.now }
    requires all { AreWinners rows.now (length rows.now) winners.now }
    ensures { result ≡ stays rows.now place }
{
    let it = at(rows, place);
    let coefs = it.row.coefs();
    let winner = winners.get(&coefs).copied();
    is_left(is_constant(it), winner, place)
}

/// For each place, whether tidying leaves its row.
pub(crate) fn winning_flags(alloc: Global, rows: &[Numbered]) -> Result<Vec<bool>, AllocError>
    ensures { IfOk result (λ got. got.items ≡ map (stays rows.now) (range_with_len 0 (length rows.now))) }
{
    let winners = winners_of(alloc, rows)?;
    let mut flags = Vec::with_capacity(alloc, rows.len())?;
    'places: for place in 0..rows.len() {
        flags.push(wins(&winners, rows, place))?;
    }
    Ok(flags)
}
