//! Affine expressions.

ghost use Rattle.std.specs.Prelude.{◌≡◌, ◌==◌, ◌&&◌, ◌++◌, OnOk, IfOk, unsigned_abs, Some, None, flat_map, string_bytes};
ghost use Rattle.az_text.specs.Lumps.{bytes_of};
ghost use Rattle.alphabets_show.specs.Pieces.{comma};
ghost use Rattle.alphabets_show.specs.Sides.{column_name, nonzero, sign, terms, affine, affines};
ghost use Rattle.alphabets_show.specs.Inner.{side_end};

use crate::names::push_column;
use az_lin::{Name, Row};
use std::alloc::AllocError;

/// The sign of a term; the first has no `+`.
fn push_sign(text: &mut String, first: bool, value: i128) -> Result<(), AllocError>
    ensures ok { OnOk result (string_bytes text.new ≡ string_bytes text.old ++ bytes_of (sign first value)) }
{
    if value < 0 {
        text.push_str("-")
    } else if first {
        Ok(())
    } else {
        text.push_str("+")
    }
}

/// A coefficient with the name of its column, if it isn't zero. Whether nothing stands there still.
fn push_coefficient(
    text: &mut String,
    params: &[Name],
    first: bool,
    column: usize,
    value: &i128,
) -> Result<bool, AllocError>
    ensures ok { OnOk result (string_bytes text.new ≡ string_bytes text.old ++ bytes_of (terms first (nonzero value.now (Some (column_name params.now column))))) }
    ensures none { IfOk result (λ still. still ≡ (first && (unsigned_abs value.now == 0))) }
{
    let size = value.unsigned_abs();
    if size == 0 {
        return Ok(first);
    }
    push_sign(text, first, *value)?;
    if size != 1 {
        write!(text, "{size}*")?;
    }
    push_column(text, params, column)?;
    Ok(false)
}

/// A constant behind its coefficients, of which there is none if it comes first.
fn push_constant(text: &mut String, first: bool, value: i128) -> Result<(), AllocError>
    ensures ok { OnOk result (string_bytes text.new ≡ string_bytes text.old ++ bytes_of (side_end first (nonzero value None))) }
{
    let size = value.unsigned_abs();
    if size == 0 && !first {
        return Ok(());
    }
    push_sign(text, first, value)?;
    write!(text, "{size}")
}

/// The value of a row: its terms in the order of the columns, and its constant.
pub(crate) fn push_affine(text: &mut String, params: &[Name], row: &Row) -> Result<(), AllocError>
    ensures ok { OnOk result (string_bytes text.new ≡ string_bytes text.old ++ bytes_of (affine params.now row.now)) }
{
    let mut first = true;
    for (column, value) in row.coefs().iter().enumerate() {
        first = push_coefficient(text, params, first, column, value)?;
    }
    push_constant(text, first, row.konst())
}

/// The values of further rows, each behind a comma.
fn push_more_affines(text: &mut String, params: &[Name], rows: &[Row]) -> Result<(), AllocError>
    ensures ok { OnOk result (string_bytes text.new ≡ string_bytes text.old ++ bytes_of (flat_map (λ row. comma (affine params.now row)) rows.now)) }
{
    for row in rows {
        text.push_str(",")?;
        push_affine(text, params, row)?;
    }
    Ok(())
}

/// The values of rows, with commas between.
#[tactic(auto, using(crate::proofs::Texts::lumps_joined))]
pub(crate) fn push_affines(
    text: &mut String,
    params: &[Name],
    rows: &[Row],
) -> Result<(), AllocError>
    ensures ok { OnOk result (string_bytes text.new ≡ string_bytes text.old ++ bytes_of (affines params.now rows.now)) }
{
    match rows {
        [] => Ok(()),
        [first, rest @ ..] => {
            push_affine(text, params, first)?;
            push_more_affines(text, params, rest)
        }
    }
}
