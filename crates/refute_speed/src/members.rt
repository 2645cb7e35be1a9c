//! Formulas over the ten columns, to be joined by all or any.

ghost use Rattle.std.specs.Prelude.{[]};
ghost use Rattle.refute_speed.specs.Over.{IsTenWide};

use crate::affine::Affine;
use az_lin::Row;
use formula_refute::{Formula, RefuteFault};
use sqlite_items::Items;
use std::alloc::Global;
use std::marker::Model;

#[derive(Debug, Drop)]
pub struct Members {
    formulas: Items<Formula>,
}

impl Model for Members {
    ghost use Rattle.std.specs.Prelude.{List, All};
    ghost use Rattle.std.specs.Coded.{codes};
    ghost use Rattle.formula_refute.specs.contracts.formula.Formula as formula;
    ghost use Rattle.formula_refute.specs.declared.formula.Formula.{Formula};
    ghost use Rattle.refute_speed.specs.Over.{IsTenWide};

    ghost Value = { List Formula };

    ghost coded = { Prim.hlevel (codes, formula.the_row.coded) };

    ghost view = { λ members. members.formulas };

    ghost invariant = { λ members. All IsTenWide members.formulas };
}

impl Members {
    pub fn new(alloc: Global) -> Members {
        Members {
            formulas: Items::new(alloc),
        }
    }

    pub fn push(&mut self, formula: Formula) -> Result<(), RefuteFault>
        requires { IsTenWide formula }
    {
        self.formulas.push(formula)?;
        Ok(())
    }

    pub fn push_row(&mut self, alloc: Global, affine: &Affine) -> Result<(), RefuteFault> {
        let [a, b, c, d, e, f, g, h, i, j] = affine.coefs;
        match Row::new(alloc, &[a, b, c, d, e, f, g, h, i, j], affine.konst) {
            Ok(row) => self.push(Formula::Atom(row)),
            Err(_) => Err(RefuteFault::Entry),
        }
    }

    pub fn all(self) -> Formula
        ensures { IsTenWide result }
    {
        Formula::All(self.formulas)
    }

    pub fn any(self) -> Formula
        ensures { IsTenWide result }
    {
        Formula::Any(self.formulas)
    }
}
