//! A program and a mapping whose formulas are all false, as a certified mapping.

ghost use Rattle.std.specs.Prelude.{◌≡◌, All, IfOk};
ghost use Rattle.life_sets.specs.Laws.{IsFalse};
ghost use Rattle.map_verify.specs.Formulas.{formulas};
ghost use Rattle.target_map.specs.Promise.{IsCertifiedMap};
ghost use Rattle.target_map.specs.Settings.{IsComplete};

use az_ast::Checked;
use std::alloc::{AllocError, Global};
use target_map::{CertifiedMap, Mapping};

/// Lets a caller know that the mapping is certified.
fn all_false(checked: &Checked, mapping: &Mapping)
    requires complete { IsComplete checked.now mapping.now }
    requires each { All IsFalse (formulas checked.now mapping.now) }
    ensures { IsCertifiedMap checked.now mapping.now }
{
    let _ = checked.program().variables();
    let _ = mapping.kinds();
}

/// Copies of both, certified.
pub fn certified_map(
    alloc: Global,
    checked: &Checked,
    mapping: &Mapping,
) -> Result<CertifiedMap, AllocError>
    requires complete { IsComplete checked.now mapping.now }
    requires each { All IsFalse (formulas checked.now mapping.now) }
    ensures value { IfOk result (λ made. made ≡ record { program = checked.now; mapping = mapping.now }) }
    ensures certified { IsCertifiedMap checked.now mapping.now }
{
    all_false(checked, mapping);
    match (checked.copy(alloc), mapping.copy(alloc)) {
        (Ok(checked), Ok(mapping)) => Ok(CertifiedMap::new(checked, mapping)),
        _ => Err(AllocError),
    }
}
