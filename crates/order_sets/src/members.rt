//! Formulas one behind the other, as members of one formula.

ghost use Rattle.std.specs.Prelude.{◌≡◌, [], Some, OnOk, IfOk};
ghost use Rattle.az_lin.specs.Affine.{IsEntry};
ghost use Rattle.az_lin.specs.Difference.{apart_by};
ghost use Rattle.formula_refute.specs.Claims.{atom};
ghost use Rattle.order_sets.specs.Made.{IsMade, with_member, all_members, any_member};
ghost use Rattle.order_sets.specs.NotBefore.{at_least, greater};

use az_lin::{LinFault, Row};
use formula_refute::Formula;
use row_columns::apart_by;
use sqlite_items::Items;
use std::alloc::{AllocError, Global};
use std::marker::Model;

/// The members so far. From the first on that could not be made, since a row was out of range, there
/// are none.
#[derive(Debug, Drop)]
pub struct Members {
    formulas: Vec<Formula>,
    fits: bool,
}

impl Model for Members {
    ghost use Rattle.std.specs.Prelude.{List, Option, Some, None, if◌then◌else◌};
    ghost use Rattle.std.specs.Coded.{codes};
    ghost use Rattle.formula_refute.specs.contracts.formula.Formula as formula;
    ghost use Rattle.formula_refute.specs.declared.formula.Formula.{Formula};

    ghost Value = { Option (List Formula) };

    ghost coded = { Prim.hlevel (codes, formula.the_row.coded) };

    ghost view = { λ members. if members.fits then Some members.formulas.items else None };
}

impl Members {
    pub fn new(alloc: Global) -> Members
        ensures { result ≡ Some [] }
    {
        Members {
            formulas: Vec::new(alloc),
            fits: true,
        }
    }

    /// Puts a formula behind the others; in the place of one that could not be made there is none.
    pub fn push(&mut self, formula: Option<Formula>) -> Result<(), AllocError>
        ensures { OnOk result (self.new ≡ with_member self.old formula) }
    {
        let Some(formula) = formula else {
            self.fits = false;
            return Ok(());
        };
        if !self.fits {
            return Ok(());
        }
        self.formulas.push(formula)?;
        Ok(())
    }

    /// True where all are.
    pub fn all(self) -> Option<Formula>
        ensures { result ≡ all_members self }
    {
        if self.fits {
            Some(Formula::All(Items::from_vec(self.formulas)))
        } else {
            None
        }
    }

    /// True where some member is.
    pub fn any(self) -> Option<Formula>
        ensures { result ≡ any_member self }
    {
        if self.fits {
            Some(Formula::Any(Items::from_vec(self.formulas)))
        } else {
            None
        }
    }
}

/// True where the first row is at least the second by so much.
pub fn difference(
    alloc: Global,
    less: &i128,
    u: &Row,
    v: &Row,
) -> Result<Option<Formula>, AllocError>
    requires { IsEntry less.now }
    ensures { IfOk result (IsMade (atom (apart_by less.now u.now v.now))) }
{
    match apart_by(alloc, less, u, v) {
        Ok(row) => Ok(Some(Formula::Atom(row))),
        Err(LinFault::Entry) => Ok(None),
        Err(LinFault::Memory) => Err(AllocError),
        Err(_) => unreachable!(),
    }
}

/// True where the first row is at least the second.
pub fn at_least(alloc: Global, u: &Row, v: &Row) -> Result<Option<Formula>, AllocError>
    ensures { IfOk result (IsMade (at_least u.now v.now)) }
{
    difference(alloc, &0, u, v)
}

/// True where the first row is greater than the second.
pub fn greater(alloc: Global, u: &Row, v: &Row) -> Result<Option<Formula>, AllocError>
    ensures { IfOk result (IsMade (greater u.now v.now)) }
{
    difference(alloc, &1, u, v)
}
