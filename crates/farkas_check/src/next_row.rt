//! One step: whether it is valid, and the row that it makes.

ghost use Rattle.std.specs.Prelude.{◌≡◌, ◌<◌, ◌≤◌, ◌++◌, ◌↔◌, length, All, IfOk, IfErr, IfSome, OnSome, IfNone, SomeIff, IsTrue, unsigned_abs};
ghost use Prim.Native.Nat.{◌∣◌};
ghost use Rattle.az_lin.specs.Affine.{Affine, HasWidth};
ghost use Rattle.az_lin.specs.CommonDivisor.{DividesEach};
ghost use Rattle.az_lin.specs.Derivation.{row_at, row_of, sum_of};
ghost use Rattle.farkas_check.specs.Verdict.{IsGood, HasGoodSigns, DividesBy};
ghost use Rattle.farkas_check.specs.declared.fault.CheckFault.TheVariants.{Memory};

use crate::CheckFault;
use az_lin::{Conj, ExactRow, RowView, Step, Weights};
use std::alloc::Global;

/// The rule that a step is held to.
#[derive(Debug, Clone, Copy, PartialEq, Eq)]
pub(crate) enum Rule {
    /// The divisor divides the coefficients, and the constant is rounded down.
    Rounded,
    /// The divisor divides the constant too, as in certificates of version 1.
    Exact,
}

/// The row of this number, counted over the system's rows and then those made.
fn row_view<'a>(system: &'a Conj, made: &'a [ExactRow], number: u32) -> Option<RowView<'a>>
    requires { All (HasWidth system.now.width) made.now }
    ensures found { OnSome result (number < length (system.now.rows ++ made.now)) }
    ensures value { IfSome result (λ view. row_at (system.now.rows ++ made.now) number ≡ record { coefs = view.coefs.now; konst = view.konst }) }
    ensures width { IfSome result (λ view. length view.coefs.now ≡ system.now.width) }
    ensures missing { IfNone result (length (system.now.rows ++ made.now) ≤ number) }
{
    let rows = system.rows();
    let number = number as usize;
    if number < rows.len() {
        return Some(rows[number].view());
    }
    match made.get(number - rows.len()) {
        Some(row) => Some(row.view()),
        None => None,
    }
}

fn has_good_signs(step: &Step) -> bool
    ensures { IsTrue result ↔ HasGoodSigns step.now }
{
    step.a >= 0 && step.b >= 0 && step.g > 0
}

fn divides_number(divisor: u128, number: i128) -> bool
    requires { 0 < divisor }
    ensures { IsTrue result ↔ (divisor ∣ unsigned_abs number) }
{
    number.unsigned_abs() % divisor == 0
}

fn divides_each(divisor: u128, numbers: &[i128]) -> bool
    requires { 0 < divisor }
    ensures { IsTrue result ↔ DividesEach divisor numbers.now }
{
    for number in numbers {
        if !divides_number(divisor, *number) {
            return false;
        }
    }
    true
}

/// Whether the divisor divides the row as the rule asks.
fn divides_row(rule: Rule, divisor: u128, row: &ExactRow) -> bool
    requires { 0 < divisor }
    ensures { IsTrue result ↔ DividesBy rule divisor row.now }
{
    match rule {
        Rule::Rounded => divides_each(divisor, row.coefs()),
        Rule::Exact => divides_each(divisor, row.coefs()) && divides_number(divisor, row.konst()),
    }
}

/// The row that a step makes, or `None` exactly where the step isn't valid by the rule.
pub(crate) fn next_row(
    alloc: Global,
    rule: Rule,
    system: &Conj,
    made: &[ExactRow],
    step: &Step,
) -> Result<Option<ExactRow>, CheckFault>
    requires { All (HasWidth system.now.width) made.now }
    ensures exact { IfOk result (λ row. SomeIff row
        (IsGood rule (system.now.rows ++ made.now) step.now) (row_of (system.now.rows ++ made.now) step.now)) }
    ensures width { IfOk result (λ row. IfSome row (HasWidth system.now.width)) }
    ensures cause { IfErr result (λ fault. fault ≡ Memory) }
{
    if !has_good_signs(step) {
        return Ok(None);
    }
    let Some(left) = row_view(system, made, step.i) else {
        return Ok(None);
    };
    let Some(right) = row_view(system, made, step.j) else {
        return Ok(None);
    };
    let weights = Weights {
        a: step.a,
        b: step.b,
    };
    let sum = match ExactRow::combination(alloc, &weights, &left, &right) {
        Ok(Some(sum)) => sum,
        Ok(None) => return Ok(None),
        Err(_) => return Err(CheckFault::Memory),
    };
    if !divides_row(rule, step.g.unsigned_abs(), &sum) {
        return Ok(None);
    }
    Ok(Some(sum.divided(step.g)))
}
