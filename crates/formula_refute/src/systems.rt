//! The cases of a formula, as systems of rows.

ghost use Rattle.std.specs.Prelude.{◌≡◌, ◌≤◌, ◌↔◌, All, Any, IfOk, List, ℤ, length};
ghost use Rattle.az_lin.specs.Affine.{Holds};
ghost use Rattle.formula_refute.specs.Claims.{claim, IsOver, IsTrueAt};
ghost use Rattle.formula_refute.specs.Cases.{most_systems};
ghost use Rattle.formula_refute.specs.Answers.{GivesCases};

use crate::formula_cases::FormulaCases;
use crate::{Formula, RefuteFault};
use az_lin::{Conj, Limit, List};
use std::alloc::Global;

fn made_cases(alloc: Global, width: usize, f: &Formula) -> Result<List<Conj>, RefuteFault>
    requires { IsOver width (claim f.now) }
    ensures { GivesCases width (claim f.now) result }
{
    let Some(cases) = FormulaCases::new(width, f) else {
        return Err(RefuteFault::Limit(Limit::Systems));
    };
    let mut systems = Vec::with_capacity(alloc, cases.count as usize)?;
    'cases: for number in 0..cases.count {
        systems.push(cases.system(alloc, number)?)?;
    }
    Ok(List::from_vec(systems))
}

/// The systems of the formula's cases, in order. `Limit(Systems)` is found before one is made.
pub fn cases(alloc: Global, width: usize, f: &Formula) -> Result<List<Conj>, RefuteFault>
    requires widths { IsOver width (claim f.now) }
    ensures exact { GivesCases width (claim f.now) result }
    ensures meaning { (z : List ℤ) → IfOk result (λ systems. Any (λ system. Holds system z) systems ↔ IsTrueAt z (claim f.now)) }
    ensures widths { IfOk result (All (λ system. system.width ≡ width)) }
    ensures few { IfOk result (λ systems. length systems ≤ most_systems) }
{
    made_cases(alloc, width, f)
}
