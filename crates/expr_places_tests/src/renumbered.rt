//! Accesses to one variable that become accesses to another.

ghost use Rattle.std.specs.Prelude.{◌==◌, if◌then◌else◌};
ghost use Rattle.az_ast.specs.Term.{access};

use az_ast::Expr;
use az_lin::{LinFault, Map, TryCopy};
use expr_maps::Replacement;
use std::alloc::Global;

#[derive(Debug, Clone, Copy)]
pub struct Renumbered {
    pub from: u32,
    pub to: u32,
}

impl Replacement for Renumbered {
    ghost gives = { λ numbers x f. access (if x == numbers.from then numbers.to else x) f };

    ghost wants = { λ numbers x f. Unit {0} };

    ghost fits = { λ numbers x f. Unit {0} };

    fn at(&self, alloc: Global, variable: u32, map: &Map) -> Result<Expr, LinFault> {
        let map = map.copy(alloc)?;
        let number = if variable == self.from {
            self.to
        } else {
            variable
        };
        Ok(Expr::Access(number, map))
    }
}
