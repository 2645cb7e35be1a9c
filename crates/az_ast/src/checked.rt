//! A program that was found to be certified.

ghost use Rattle.std.specs.Prelude.{◌≡◌, IfOk, IfErr};
ghost use Rattle.az_ast.specs.declared.fault.ShapeFault.TheVariants.{Memory};
ghost use Rattle.az_ast.specs.Certified.{IsCertified};

use crate::copy::copied;
use crate::{Program, ShapeFault};
use az_lin::{LinFault, TryCopy};
use std::alloc::Global;
use std::marker::Model;

/// Its domains are finite, its branches cover and don't overlap, and its reads stay within.
#[derive(Debug, Drop)]
pub struct Checked {
    program: Program,
}

impl Model for Checked {
    ghost use Rattle.std.specs.Coded.{codes};
    ghost use Rattle.az_ast.specs.contracts.expr.Expr as e;
    ghost use Rattle.az_ast.specs.System.{System};
    ghost use Rattle.az_ast.specs.Certified.{IsCertified};

    ghost Value = { System };

    ghost coded = { Prim.hlevel (codes, e.the_row.coded) };

    ghost view = { λ checked. checked.program };

    ghost invariant = { λ checked. IsCertified checked.program };
}

impl TryCopy for Checked {
    fn copy(&self, alloc: Global) -> Result<Self, LinFault> {
        let program = TryCopy::copy(&self.program, alloc)?;
        Ok(Checked { program })
    }
}

impl Checked {
    pub fn new(program: Program) -> Checked
        requires { IsCertified program }
        ensures { result ≡ program }
    {
        Checked { program }
    }

    /// An equal program, which is certified too.
    pub fn copy(&self, alloc: Global) -> Result<Checked, ShapeFault>
        ensures ok { IfOk result (λ copied. copied ≡ self.now) }
        ensures cause { IfErr result (λ fault. fault ≡ Memory) }
    {
        copied(alloc, self)
    }

    pub fn program(&self) -> &Program
        ensures value { result.now ≡ self.now }
        ensures certified { IsCertified result.now }
    {
        &self.program
    }
}
