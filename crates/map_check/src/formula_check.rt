//! Whether derivations prove a formula, case by case.

ghost use Rattle.std.specs.Prelude.{◌≡◌, IfOk, MatchOption};
ghost use Rattle.std.specs.Option.{option_copied};
ghost use Rattle.az_lin.specs.Derivation.{IsDerivation, IsFirstBad};
ghost use Rattle.farkas_check.specs.Verdict.{IsVerdict};
ghost use Rattle.map_verify.specs.Certificates.{rule_of};
ghost use Rattle.map_verify.specs.Formulas.{HasFewCases};
ghost use Rattle.map_verify.specs.Inner.Checked.{ChecksFormula, ChecksPlace};
ghost use Rattle.order_sets.specs.Stated.{IsRefutable, stated_claim};

use az_lin::{Conj, Derivation, List};
use cert_text::Proved;
use farkas_check::{CheckFault, check, check_exact};
use formula_refute::cases;
use map_verify::BadCertificate;
use order_sets::Stated;
use std::alloc::{AllocError, Global};

/// The judge's answer by the rule of the version: in version 1 no step rounds.
fn judged(
    alloc: Global,
    version: u32,
    system: &Conj,
    derivation: &Derivation,
) -> Result<(), CheckFault>
    ensures { IsVerdict (rule_of version) system.now.rows derivation.now.steps result }
{
    if version == 1 {
        check_exact(alloc, system, derivation)
    } else {
        check(alloc, system, derivation)
    }
}

/// The first step that isn't valid by the rule of the version, as the judge counts it; none where the
/// derivation refutes the system.
fn first_bad_step(
    alloc: Global,
    version: u32,
    system: &Conj,
    derivation: &Derivation,
) -> Result<Option<u64>, AllocError>
    ensures { IfOk result (λ bad. MatchOption bad (IsDerivation (rule_of version) system.now.rows derivation.now.steps) (IsFirstBad (rule_of version) system.now.rows derivation.now.steps)) }
{
    match judged(alloc, version, system, derivation) {
        Ok(()) => Ok(None),
        Err(fault) => match fault {
            CheckFault::BadStep { number } => Ok(Some(number)),
            CheckFault::Memory => Err(AllocError),
        },
    }
}

/// Whether the derivations refute the formula's cases, one by one.
fn check_cases(
    alloc: Global,
    version: u32,
    stated: &Stated,
    derivations: &List<Derivation>,
) -> Result<(), BadCertificate>
    requires refutable { IsRefutable (stated_claim stated.now) }
    requires few { HasFewCases (stated_claim stated.now) }
    ensures { ChecksFormula version (stated_claim stated.now) derivations.now result }
{
    let which = stated.which;
    let systems = match cases(alloc, stated.width, &stated.formula) {
        Ok(systems) => systems.into_vec(),
        Err(_) => return Err(BadCertificate::Memory),
    };
    'cases: for number in 0..systems.len() {
        let case_no = number as u32;
        let Some(derivation) = derivations.get(number) else {
            return Err(BadCertificate::Missing { which, case_no });
        };
        let bad = first_bad_step(alloc, version, &systems[number], derivation)?;
        if let Some(step) = bad {
            return Err(BadCertificate::Step {
                which,
                case_no,
                step,
            });
        }
    }
    if derivations.len() > systems.len() {
        return Err(BadCertificate::Extra);
    }
    Ok(())
}

/// Whether what stands at the formula's place proves it.
pub(crate) fn check_place(
    alloc: Global,
    version: u32,
    stated: &Stated,
    place: Option<&Proved>,
) -> Result<(), BadCertificate>
    requires refutable { IsRefutable (stated_claim stated.now) }
    requires few { HasFewCases (stated_claim stated.now) }
    ensures { ChecksPlace version (stated_claim stated.now) (option_copied place.entry) result }
{
    let which = stated.which;
    match place {
        Some(proved) if proved.which == which => {
            check_cases(alloc, version, stated, &proved.derivations)
        }
        _ => Err(BadCertificate::Missing { which, case_no: 0 }),
    }
}
