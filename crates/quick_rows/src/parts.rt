//! The columns of a row that count, with their factors, where these are so small that the row's
//! value at coordinates is a 64-bit number.

ghost use Rattle.std.specs.Prelude.{◌≡◌, ◌↔◌, ◌<◌, ◌≤◌, ◌^◌, ◌+ℤ◌, ◌*ℤ◌, pos, length, All, IsTrue, IfOk, IfSome, OnOk, unsigned_abs, slice_index_or};
ghost use Rattle.az_lin.specs.Affine.{IsCoordinate};
ghost use Rattle.quick_rows.specs.Parts.{IsFactor, IsPart, AddsPart, AreParts, parts_at};

use std::alloc::{AllocError, Global};

/// Factors below it, at 64 columns at most, leave room for a constant.
const MOST_FACTOR: i128 = (1 << 16) - 1;

#[derive(Debug, Clone, Copy)]
pub(crate) struct Part {
    pub(crate) column: usize,
    pub(crate) factor: i64,
}

fn is_factor(coef: i128) -> bool
    ensures { IsTrue result ↔ IsFactor coef }
{
    -MOST_FACTOR <= coef && coef <= MOST_FACTOR
}

fn part_of(column: usize, coef: i128) -> Part
    requires { IsFactor coef }
    ensures { result ≡ record { column = column; factor = coef } }
{
    Part {
        column,
        factor: coef as i64,
    }
}

/// Adds the column, if its coefficient isn't 0.
#[tactic(auto, using(crate::proofs::Sums::adds_none, crate::proofs::Sums::adds_one))]
fn push_part(parts: &mut Vec<Part>, column: usize, coef: i128) -> Result<(), AllocError>
    requires { IsFactor coef }
    ensures { OnOk result (AddsPart column coef parts.old.items parts.new.items) }
{
    if coef == 0 {
        return Ok(());
    }
    parts.push(part_of(column, coef))?;
    Ok(())
}

/// The parts of the coefficients that aren't 0, if all of them are small.
pub(crate) fn parts_of(alloc: Global, coefs: &[i128]) -> Result<Option<Vec<Part>>, AllocError>
    ensures { IfOk result (λ found. IfSome found (λ parts. AreParts coefs.now parts.items)) }
{
    let mut parts = Vec::new(alloc);
    'columns: for column in 0..coefs.len() {
        if !is_factor(coefs[column]) {
            return Ok(None);
        }
        push_part(&mut parts, column, coefs[column])?;
    }
    Ok(Some(parts))
}

#[tactic(auto, using(crate::proofs::Sums::product_small, crate::proofs::Sums::product_fits))]
fn product(factor: i64, coordinate: i128) -> i64
    requires factor { IsFactor factor }
    requires coordinate { IsCoordinate coordinate }
    ensures value { result ≡ factor *ℤ coordinate }
    ensures small { unsigned_abs result ≤ 2 ^ 56 }
{
    factor * (coordinate as i64)
}

fn part_at(part: &Part, z: &[i128]) -> i64
    requires part { IsPart (length z.now) part.now }
    requires range { All IsCoordinate z.now }
    ensures value { result ≡ part.now.factor *ℤ slice_index_or z.now part.now.column (pos 0) }
    ensures small { unsigned_abs result ≤ 2 ^ 56 }
{
    product(part.factor, z[part.column])
}

/// The parts at a point and the constant.
pub(crate) fn sum_at(parts: &[Part], konst: i64, z: &[i128]) -> i64
    requires parts { All (IsPart (length z.now)) parts.now }
    requires few { length parts.now ≤ 64 }
    requires small { unsigned_abs konst < 2 ^ 60 }
    requires range { All IsCoordinate z.now }
    ensures { result ≡ parts_at parts.now z.now +ℤ konst }
{
    let mut sum = konst;
    'parts: for part in parts {
        sum += part_at(part, z);
    }
    sum
}
