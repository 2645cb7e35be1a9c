//! The negation of a formula.

ghost use Rattle.std.specs.Prelude.{◌≡◌, ◌↔◌, IfOk, List, ℕ, ℤ};
ghost use Rattle.formula_refute.specs.Claims.{claim, IsOver, IsTrueAt};
ghost use Rattle.formula_refute.specs.Answers.{Negates};
ghost use Rattle.formula_refute.specs.Inner.Negations.{NegatesRow};

use crate::{Formula, RefuteFault};
use az_lin::{LinFault, Row};
use sqlite_items::Items;
use std::alloc::Global;

fn negated_row(alloc: Global, row: &Row) -> Result<Row, RefuteFault>
    ensures { NegatesRow row.now result }
{
    match row.negate(alloc) {
        Ok(negated) => Ok(negated),
        Err(LinFault::Entry) => Err(RefuteFault::Entry),
        Err(LinFault::Memory) => Err(RefuteFault::Memory),
        Err(_) => unreachable!(),
    }
}

fn opposite(alloc: Global, f: &Formula) -> Result<Formula, RefuteFault>
    ensures { Negates (claim f.now) result }
{
    match f {
        Formula::Atom(row) => match negated_row(alloc, row) {
            Ok(negated) => Ok(Formula::Atom(negated)),
            Err(fault) => Err(fault),
        },
        Formula::All(members) => {
            let mut opposites = Items::new(alloc);
            'all: for member in members.as_slice() {
                match opposite(alloc, member) {
                    Ok(negated) => opposites.push(negated)?,
                    Err(fault) => return Err(fault),
                }
            }
            Ok(Formula::Any(opposites))
        }
        Formula::Any(members) => {
            let mut opposites = Items::new(alloc);
            'any: for member in members.as_slice() {
                match opposite(alloc, member) {
                    Ok(negated) => opposites.push(negated)?,
                    Err(fault) => return Err(fault),
                }
            }
            Ok(Formula::All(opposites))
        }
    }
}

/// The formula that is true at the whole points where this one is false.
pub fn negate(alloc: Global, f: &Formula) -> Result<Formula, RefuteFault>
    ensures exact { Negates (claim f.now) result }
    ensures meaning { (z : List ℤ) → IfOk result (λ formula. IsTrueAt z (claim formula) ↔ (IsTrueAt z (claim f.now) → ⊥)) }
    ensures widths { (width : ℕ) → IsOver width (claim f.now) → IfOk result (λ formula. IsOver width (claim formula)) }
{
    opposite(alloc, f)
}
