//! The check of a certificate, which searches for nothing.

ghost use Rattle.std.specs.Prelude.{◌≡◌, All, map, OnOk, IfErr};
ghost use Rattle.cert_text.specs.Versions.{IsVersion};
ghost use Rattle.map_verify.specs.Formulas.{HasFewCases};
ghost use Rattle.map_verify.specs.Inner.Checked.{ChecksAll};
ghost use Rattle.map_verify.specs.Mistakes.{Checks};
ghost use Rattle.map_verify.specs.Promise.{IsAccepted};
ghost use Rattle.map_verify.specs.declared.fault.BadCertificate.TheVariants.{Memory};
ghost use Rattle.order_sets.specs.Stated.{IsRefutable, stated_claim};
ghost use Rattle.target_map.specs.Promise.{IsCertifiedMap};
ghost use Rattle.target_map.specs.Settings.{IsComplete};

use crate::formula_check::check_place;
use az_ast::Checked;
use az_lin::{Limit, List};
use cert_text::{Certificate, Proved};
use map_verify::{BadCertificate, Unready, certified_map, ready_formulas};
use order_sets::Stated;
use std::alloc::Global;
use target_map::{CertifiedMap, Mapping};

/// Whether each formula is proved at its place, and nothing is left over.
fn check_all(
    alloc: Global,
    version: u32,
    formulas: &[Stated],
    proved: &List<Proved>,
) -> Result<(), BadCertificate>
    requires refutable { All IsRefutable (map stated_claim formulas.now) }
    requires few { All HasFewCases (map stated_claim formulas.now) }
    ensures { ChecksAll version (map stated_claim formulas.now) proved.now result }
{
    'formulas: for number in 0..formulas.len() {
        match check_place(alloc, version, &formulas[number], proved.get(number)) {
            Ok(()) => {}
            Err(mistake) => return Err(mistake),
        }
    }
    if proved.len() > formulas.len() {
        return Err(BadCertificate::Extra);
    }
    Ok(())
}

fn checked_map(
    alloc: Global,
    checked: &Checked,
    mapping: &Mapping,
    certificate: &Certificate,
) -> Result<CertifiedMap, BadCertificate>
    requires complete { IsComplete checked.now mapping.now }
    ensures answer { Checks checked.now mapping.now certificate.now result }
    ensures certified { OnOk result (IsCertifiedMap checked.now mapping.now) }
{
    let formulas = match ready_formulas(alloc, checked, mapping) {
        Ok(formulas) => formulas,
        Err(Unready::Entry) => return Err(BadCertificate::Entry),
        Err(Unready::TooManyCases) => return Err(BadCertificate::Limit(Limit::Systems)),
        Err(Unready::Memory) => return Err(BadCertificate::Memory),
    };
    match check_all(
        alloc,
        certificate.version,
        formulas.as_slice(),
        &certificate.proved,
    ) {
        Ok(()) => Ok(certified_map(alloc, checked, mapping)?),
        Err(mistake) => Err(mistake),
    }
}

/// Whether the certificate has a valid derivation for each case of each formula, and nothing else;
/// then the mapping is certified for all parameters. Else the first mistake.
pub fn check_only(
    alloc: Global,
    checked: &Checked,
    mapping: &Mapping,
    certificate: &Certificate,
) -> Result<CertifiedMap, BadCertificate>
    requires complete { IsComplete checked.now mapping.now }
    requires version { IsVersion certificate.now.version }
    ensures answer { Checks checked.now mapping.now certificate.now result }
    ensures certified { OnOk result (IsCertifiedMap checked.now mapping.now) }
    ensures accepts { IsAccepted checked.now mapping.now certificate.now → IfErr result (λ fault. fault ≡ Memory) }
{
    checked_map(alloc, checked, mapping, certificate)
}
