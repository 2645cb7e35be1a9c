//! Numbers over a common denominator, in text.

ghost use Rattle.std.specs.Prelude.{◌≡◌, ◌++◌, OnOk, IfOk, string_bytes, unsigned_abs};
ghost use Rattle.session_state.specs.Coordinates.{ratio, in_lowest_terms, coordinate, separator, rows_text, joined, point_text, rational_point};

use az_lin::{RatPoint, gcd};
use std::alloc::{AllocError, Global};

fn push_ratio(text: &mut String, p: u128, q: u128) -> Result<(), AllocError>
    ensures { OnOk result (string_bytes text.new ≡ string_bytes text.old ++ ratio p q) }
{
    if q == 1 {
        write!(text, "{p}")
    } else {
        write!(text, "{p}/{q}")
    }
}

fn push_in_lowest_terms(text: &mut String, number: u128, den: u128) -> Result<(), AllocError>
    ensures { OnOk result (string_bytes text.new ≡ string_bytes text.old ++ in_lowest_terms number den) }
{
    let divisor = gcd(number, den).max(1);
    push_ratio(text, number / divisor, den / divisor)
}

fn push_coordinate(text: &mut String, number: i128, den: u128) -> Result<(), AllocError>
    ensures { OnOk result (string_bytes text.new ≡ string_bytes text.old ++ coordinate den number) }
{
    if number < 0 {
        text.push_str("-")?;
    }
    push_in_lowest_terms(text, number.unsigned_abs(), den)
}

/// What stands before the number at a place of rows of that length.
fn separator(row: usize, place: usize) -> &'static str
    ensures { result.now ≡ separator row place }
{
    if place == 0 {
        ""
    } else if place % row.max(1) == 0 {
        ";"
    } else {
        ","
    }
}

/// The numbers over the denominator, in rows of that length.
pub(crate) fn rows_text(
    alloc: Global,
    row: usize,
    den: u128,
    numbers: &[i128],
) -> Result<String, AllocError>
    ensures { IfOk result (λ text. string_bytes text ≡ rows_text row den numbers.now) }
{
    let mut text = String::new(alloc);
    for (place, number) in numbers.iter().enumerate() {
        text.push_str(separator(row, place))?;
        push_coordinate(&mut text, *number, den)?;
    }
    Ok(text)
}

/// The coordinates of a point over the denominator, joined by commas.
pub(crate) fn joined(alloc: Global, den: u128, numbers: &[i128]) -> Result<String, AllocError>
    ensures { IfOk result (λ text. string_bytes text ≡ joined den numbers.now) }
{
    rows_text(alloc, numbers.len(), den, numbers)
}

/// The same, where a point without coordinates is `-`.
pub(crate) fn point_text(alloc: Global, den: u128, numbers: &[i128]) -> Result<String, AllocError>
    ensures { IfOk result (λ text. string_bytes text ≡ point_text den numbers.now) }
{
    if numbers.is_empty() {
        return String::from_str(alloc, "-");
    }
    joined(alloc, den, numbers)
}

pub(crate) fn rational_point(alloc: Global, point: &RatPoint) -> Result<String, AllocError>
    ensures { IfOk result (λ text. string_bytes text ≡ rational_point point.now) }
{
    point_text(alloc, point.den.unsigned_abs(), point.nums.as_slice())
}
