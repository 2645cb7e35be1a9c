//! Mappings that keep their promise.

ghost use Rattle.std.specs.Prelude.{◌≡◌};
ghost use Rattle.target_map.specs.Promise.{IsCertifiedMap};

use crate::Mapping;
use az_ast::Checked;
use std::marker::Model;

/// A program and a mapping that is certified for it.
#[derive(Debug, Drop)]
pub struct CertifiedMap {
    checked: Checked,
    mapping: Mapping,
}

impl Model for CertifiedMap {
    ghost use Rattle.std.specs.Coded.{codes};
    ghost use Rattle.std.specs.FinMap as map;
    ghost use Rattle.az_ast.specs.contracts.expr.Expr as e;
    ghost use Rattle.target_map.specs.Pair.{MappedProgram};
    ghost use Rattle.target_map.specs.Promise.{IsCertifiedMap};

    ghost Value = { MappedProgram };

    ghost coded = { Prim.hlevel (codes, map.code, e.the_row.coded) };

    ghost view = { λ c. record { program = c.checked; mapping = c.mapping } };

    ghost invariant = { λ c. IsCertifiedMap c.checked c.mapping };
}

impl CertifiedMap {
    pub fn new(checked: Checked, mapping: Mapping) -> CertifiedMap
        requires { IsCertifiedMap checked mapping }
        ensures { result ≡ record { program = checked; mapping = mapping } }
    {
        CertifiedMap { checked, mapping }
    }

    pub fn checked(&self) -> &Checked
        ensures value { result.now ≡ self.now.program }
        ensures certified { IsCertifiedMap self.now.program self.now.mapping }
    {
        &self.checked
    }

    pub fn mapping(&self) -> &Mapping
        ensures value { result.now ≡ self.now.mapping }
        ensures certified { IsCertifiedMap self.now.program self.now.mapping }
    {
        &self.mapping
    }
}
