//! Rounding: coefficients are divided by their greatest common divisor.

ghost use Rattle.std.specs.Prelude.{◌≡◌, ◌<◌, ◌+◌, ◌^◌, ◌++◌, MatchOption, OnOk, IfOk, true, false, pos, vec_len};
ghost use Rattle.az_lin.specs.Affine.{IsWide};
ghost use Rattle.az_lin.specs.CommonDivisor.{gcd_of_all};
ghost use Rattle.farkas_find.specs.Combining.{at_least_one};
ghost use Rattle.farkas_find.specs.Tidying.{is_rounded, rounded, rounded_rows, rounding_steps};

use crate::numbered::Numbered;
use az_lin::{ExactRow, Step, gcd_all};
use std::alloc::{AllocError, Global};

/// The divisor of a row's rounding, which is above 1, or `None` where rounding leaves the row as it is.
fn divisor(row: &ExactRow) -> Option<i128>
    ensures { MatchOption result (is_rounded row.now ≡ false)
        (λ divisor. (is_rounded row.now ≡ true) × (divisor ≡ pos (gcd_of_all row.now.coefs)) × IsWide divisor) }
{
    let divisor = gcd_all(row.coefs());
    if divisor <= 1 {
        return None;
    }
    Some(divisor as i128)
}

/// A rounded row, and by what rounding divided it.
#[derive(Debug, Drop)]
pub(crate) struct Quotient {
    pub(crate) row: ExactRow,
    pub(crate) divisor: i128,
}

/// The row, rounded.
pub(crate) fn rounded(row: ExactRow) -> Quotient
    ensures row { result.row ≡ rounded row }
    ensures divisor { result.divisor ≡ pos (at_least_one (gcd_of_all row.coefs)) }
{
    match divisor(&row) {
        Some(divisor) => Quotient {
            row: row.divided(divisor),
            divisor,
        },
        None => Quotient { row, divisor: 1 },
    }
}

/// The step that rounds a row.
fn rounding_step(number: u32, divisor: i128) -> Step
    ensures { result ≡ record { a = pos 1; i = number; b = pos 0; j = number; g = divisor } }
{
    Step {
        a: 1,
        i: number,
        b: 0,
        j: number,
        g: divisor,
    }
}

/// Rounds each row. A row that this changes takes the next number, by a step of its own.
pub(crate) fn round_rows(
    alloc: Global,
    rows: Vec<Numbered>,
    next: u32,
    steps: &mut Vec<Step>,
) -> Result<Vec<Numbered>, AllocError>
    requires { next + vec_len rows < 2 ^ 32 }
    ensures rows { IfOk result (λ got. got.items ≡ rounded_rows next rows.items) }
    ensures steps { OnOk result (steps.new.items ≡ steps.old.items ++ rounding_steps rows.items) }
{
    let mut done = Vec::with_capacity(alloc, rows.len())?;
    let mut number = next;
    'rows: for it in rows.into_iter() {
        match divisor(&it.row) {
            Some(divisor) => {
                steps.push(rounding_step(it.number, divisor))?;
                done.push(Numbered {
                    row: it.row.divided(divisor),
                    number,
                })?;
                number += 1;
            }
            None => done.push(it)?,
        }
    }
    Ok(done)
}
