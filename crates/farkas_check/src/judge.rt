//! Whether a derivation refutes a system.

ghost use Rattle.std.specs.Prelude.{◌≡◌, ◌↔◌, IsTrue, List, OnOk, ℤ};
ghost use Rattle.az_lin.specs.Affine.{Holds};
ghost use Rattle.az_lin.specs.Derivation.{IsStep, IsExactStep, IsContradiction};
ghost use Rattle.farkas_check.specs.Directions.{BalancingMultipliers, HasConstantAtLastAlone};
ghost use Rattle.farkas_check.specs.Verdict.{IsContradictionLast, IsGood, IsVerdict};

use crate::CheckFault;
use crate::next_row::{Rule, next_row};
use az_lin::{Conj, Derivation, ExactRow};
use std::alloc::Global;

/// Whether the row is negative at every point.
fn is_contradiction(row: &ExactRow) -> bool
    ensures { IsTrue result ↔ IsContradiction row.now }
{
    row.konst() < 0 && row.coefs().iter().all(|coef| *coef == 0)
}

fn ends_in_contradiction(made: &[ExactRow]) -> bool
    ensures { IsTrue result ↔ IsContradictionLast made.now }
{
    match made.last() {
        Some(row) => is_contradiction(row),
        None => false,
    }
}

fn judge(
    alloc: Global,
    rule: Rule,
    system: &Conj,
    derivation: &Derivation,
) -> Result<(), CheckFault>
    ensures { IsVerdict (IsGood rule) system.now.rows derivation.now.steps result }
{
    let steps = derivation.steps.as_slice();
    let mut made = Vec::new(alloc);
    'steps: for number in 0..steps.len() {
        match next_row(alloc, rule, system, made.as_slice(), &steps[number])? {
            Some(row) => made.push(row)?,
            None => {
                return Err(CheckFault::BadStep {
                    number: number as u64,
                });
            }
        }
    }
    if !ends_in_contradiction(made.as_slice()) {
        return Err(CheckFault::BadStep {
            number: steps.len() as u64,
        });
    }
    Ok(())
}

/// Whether the derivation refutes the system, where each step may round its constant down.
pub fn check(alloc: Global, system: &Conj, derivation: &Derivation) -> Result<(), CheckFault>
    ensures verdict { IsVerdict IsStep system.now.rows derivation.now.steps result }
    ensures refutes { OnOk result ((z : List ℤ) → ¬ Holds system.now z) }
    ensures multipliers { OnOk result (HasConstantAtLastAlone system.now.rows → BalancingMultipliers system.now.rows) }
{
    judge(alloc, Rule::Rounded, system, derivation)
}

/// Whether the derivation refutes the system by the rule of version 1, where each step divides its
/// constant exactly.
pub fn check_exact(alloc: Global, system: &Conj, derivation: &Derivation) -> Result<(), CheckFault>
    ensures verdict { IsVerdict IsExactStep system.now.rows derivation.now.steps result }
    ensures refutes { OnOk result ((z : List ℤ) → ¬ Holds system.now z) }
    ensures multipliers { OnOk result (HasConstantAtLastAlone system.now.rows → BalancingMultipliers system.now.rows) }
{
    judge(alloc, Rule::Exact, system, derivation)
}
