//! The parts of a program that are put together, and why they are refused.

ghost use Rattle.std.specs.Prelude.{◌≡◌, ◌<◌, ◌≤◌, length, All};
ghost use Rattle.std.specs.List.{list_any};
ghost use Rattle.az_ast.specs.Placed.{IsPlaced};
ghost use Rattle.az_ast.specs.Rows.{HasRows};
ghost use Rattle.az_ast.specs.Shapes.{all_domains, has_many_names, has_many_columns, has_many_nodes, limit_of, shape_of, refusal_of};
ghost use Rattle.az_ast.specs.Walks.{is_outside};

use crate::items::{declaration_fault, equation_fault, missing_fault};
use crate::limits::{has_many_indices, has_many_nodes, some_outside, some_under_many};
use crate::rows::{domain_rows, equation_rows, variable_rows};
use crate::shape::header_kind;
use crate::sought_parts::OutsideBounds;
use crate::{Equation, ShapeFault, Variable};
use az_lin::{Domain, Limit, LinFault, List, Name, TryCopy};
use std::alloc::Global;
use std::marker::Model;

#[derive(Debug, Drop)]
pub(crate) struct Draft {
    pub name: Name,
    pub params: List<Name>,
    pub pdom: Domain,
    pub variables: List<Variable>,
    pub equations: List<Equation>,
}

impl Model for Draft {
    ghost use Rattle.std.specs.Coded.{codes};
    ghost use Rattle.az_ast.specs.contracts.expr.Expr as e;
    ghost use Rattle.az_ast.specs.System.{System};

    ghost Value = { System };

    ghost coded = { Prim.hlevel (codes, e.the_row.coded) };

    ghost view = { λ p. record { name = p.name; params = p.params; pdom = p.pdom; variables = p.variables; equations = p.equations } };
}

impl TryCopy for Draft {
    fn copy(&self, alloc: Global) -> Result<Self, LinFault> {
        let name = self.name.copy(alloc)?;
        let params = self.params.copy(alloc)?;
        let pdom = self.pdom.copy(alloc)?;
        let variables = self.variables.copy(alloc)?;
        let equations = self.equations.copy(alloc)?;
        Ok(Draft {
            name,
            params,
            pdom,
            variables,
            equations,
        })
    }
}

/// The number of disjuncts that a domain may have.
const DISJUNCTS: OutsideBounds = OutsideBounds { least: 0, most: 8 };

impl Draft {
    fn has_many_names(&self) -> bool
        ensures { result ≡ has_many_names self.now }
    {
        256 < self.variables.len() || 8 < self.params.len()
    }

    fn has_many_columns(&self) -> bool
        ensures { result ≡ has_many_columns self.now }
    {
        let params = self.params.len();
        let variables = self.variables.as_slice();
        has_many_indices(params, variables)
            || some_under_many(params, variables, self.equations.as_slice())
    }

    fn has_many_nodes(&self) -> bool
        ensures { result ≡ has_many_nodes self.now }
    {
        has_many_nodes(self.equations.as_slice())
    }

    /// Whether a domain has a number of disjuncts outside the bounds.
    pub fn some_domain_outside(&self, bounds: &OutsideBounds) -> bool
        ensures { result ≡ list_any (is_outside bounds.now.least bounds.now.most) (all_domains self.now) }
    {
        let variables = self.variables.as_slice();
        let equations = self.equations.as_slice();
        bounds.is_outside(&self.pdom) || some_outside(bounds, variables, equations)
    }

    /// The first limit that is exceeded.
    fn limit(&self) -> Option<ShapeFault>
        ensures { result ≡ limit_of self.now }
    {
        if self.has_many_names() {
            return Some(ShapeFault::Limit(Limit::Names));
        }
        if self.has_many_columns() {
            return Some(ShapeFault::Limit(Limit::Columns));
        }
        if self.has_many_nodes() {
            return Some(ShapeFault::Limit(Limit::Size));
        }
        if self.some_domain_outside(&DISJUNCTS) {
            return Some(ShapeFault::Limit(Limit::Disjuncts));
        }
        None
    }

    /// The first item at fault, with its first kind.
    #[tactic(auto, using(crate::proofs::ShapeParts::shape_parts))]
    fn shape(&self) -> Option<ShapeFault>
        requires few { length self.now.variables ≤ 256 }
        requires declared { All (λ equation. equation.variable < length self.now.variables) self.now.equations }
        ensures { result ≡ shape_of self.now }
    {
        let variables = self.variables.as_slice();
        let equations = self.equations.as_slice();
        if let Some(kind) = header_kind(self.params.as_slice()) {
            return Some(ShapeFault::Shape { kind, item: 0 });
        }
        if let Some(fault) = declaration_fault(variables) {
            return Some(fault);
        }
        if let Some(fault) = equation_fault(self.params.len(), variables, equations) {
            return Some(fault);
        }
        missing_fault(variables, equations)
    }

    /// Each row has its place's width.
    pub fn rows(&self)
        requires { IsPlaced self.now }
        ensures { HasRows self.now }
    {
        let variables = self.variables.as_slice();
        domain_rows(&self.pdom);
        variable_rows(variables);
        equation_rows(variables, self.equations.as_slice());
    }

    /// Why the parts are no program.
    pub fn refusal(&self) -> Option<ShapeFault>
        requires { IsPlaced self.now }
        ensures { result ≡ refusal_of self.now }
    {
        if let Some(fault) = self.limit() {
            return Some(fault);
        }
        self.shape()
    }
}
