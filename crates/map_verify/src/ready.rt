//! All formulas of a mapping, ready for a look at their cases.

ghost use Rattle.std.specs.Prelude.{◌≡◌, ◌↔◌, ◌++◌, IsTrue, IfOk, All, map};
ghost use Rattle.map_verify.specs.Formulas.{HasFewCases};
ghost use Rattle.map_verify.specs.Inner.Ready.{GivesAll, GivesReady};
ghost use Rattle.map_verify.specs.declared.ready.Unready.TheVariants.{Memory};
ghost use Rattle.order_sets.specs.Stated.{stated_claim};
ghost use Rattle.target_map.specs.Settings.{IsComplete};

use az_ast::Checked;
use az_lin::List;
use formula_refute::{RefuteFault, case_count};
use life_sets::lifetime_formulas;
use order_sets::{Stated, dependence_formulas};
use std::alloc::{AllocError, Global};
use target_map::Mapping;

/// Why no case of a formula is looked at.
#[derive(Debug, Clone, Copy, PartialEq, Eq)]
pub enum Unready {
    Entry,
    TooManyCases,
    Memory,
}

impl From<AllocError> for Unready {
    ghost from_gives = { λ _ e. e ≡ Memory };

    fn from(_: AllocError) -> Self {
        Unready::Memory
    }
}

/// One list behind the other.
fn joined(first: List<Stated>, second: List<Stated>) -> Result<List<Stated>, AllocError>
    ensures { IfOk result (λ list. list ≡ first ++ second) }
{
    let mut list = first.into_vec();
    let mut more = second.into_vec();
    list.append(&mut more)?;
    Ok(List::from_vec(list))
}

/// The formulas of the dependences, and then those of the lifetimes.
fn all_formulas(
    alloc: Global,
    checked: &Checked,
    mapping: &Mapping,
) -> Result<List<Stated>, Unready>
    requires { IsComplete checked.now mapping.now }
    ensures { GivesAll checked.now mapping.now result }
{
    let orders = match dependence_formulas(alloc, checked, mapping) {
        Ok(orders) => orders,
        Err(RefuteFault::Entry) => return Err(Unready::Entry),
        Err(_) => return Err(Unready::Memory),
    };
    let lifetimes = match lifetime_formulas(alloc, checked, mapping) {
        Ok(lifetimes) => lifetimes,
        Err(RefuteFault::Entry) => return Err(Unready::Entry),
        Err(_) => return Err(Unready::Memory),
    };
    Ok(joined(orders, lifetimes)?)
}

fn has_few_cases(stated: &Stated) -> bool
    ensures { IsTrue result ↔ HasFewCases (stated_claim stated.now) }
{
    case_count(&stated.formula) <= 1 << 17
}

fn are_few(formulas: &[Stated]) -> bool
    ensures { IsTrue result ↔ All HasFewCases (map stated_claim formulas.now) }
{
    'formulas: for number in 0..formulas.len() {
        if !has_few_cases(&formulas[number]) {
            return false;
        }
    }
    true
}

/// All formulas, with few enough cases each. `Entry` is found before the cases are counted.
pub fn ready_formulas(
    alloc: Global,
    checked: &Checked,
    mapping: &Mapping,
) -> Result<List<Stated>, Unready>
    requires { IsComplete checked.now mapping.now }
    ensures { GivesReady checked.now mapping.now result }
{
    let formulas = match all_formulas(alloc, checked, mapping) {
        Ok(formulas) => formulas,
        Err(fault) => return Err(fault),
    };
    if !are_few(formulas.as_slice()) {
        return Err(Unready::TooManyCases);
    }
    Ok(formulas)
}
