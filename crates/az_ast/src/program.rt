//! A program: its parameters and their domain, its variables, and an equation for each output
//! and local.

ghost use Rattle.std.specs.Prelude.{◌≡◌, ◌<◌, ◌↔◌, IsTrue, IfOk, IfErr, Some, None, is_none, length};
ghost use Rattle.std.specs.Option.{option_copied};
ghost use Rattle.az_ast.specs.declared.fault.ShapeFault.TheVariants.{Memory};
ghost use Rattle.az_ast.specs.Meaning.{equation_of};
ghost use Rattle.az_ast.specs.Placed.{IsPlaced};
ghost use Rattle.az_ast.specs.Shapes.{refusal_of, IsProgram, IsPlain, indices, of_variable, is_input};

use crate::copy::{copied, copy_of};
use crate::draft::Draft;
use crate::sought_parts::OutsideBounds;
use crate::{Expr, ShapeFault};
use az_lin::{Domain, LinFault, List, Name, TryCopy};
use std::alloc::Global;
use std::marker::Model;

#[derive(Debug, Clone, Copy, PartialEq, Eq)]
pub enum Role {
    Input,
    Output,
    Local,
}

/// A variable, and the domain over which it is defined: its columns are the parameters and then
/// the variable's indices.
#[derive(Debug, Drop)]
pub struct Variable {
    pub name: Name,
    pub role: Role,
    pub domain: Domain,
}

impl Variable {
    /// How many indices it has, in a program of so many parameters.
    pub fn indices(&self, params: usize) -> usize
        ensures { result ≡ indices params self.now }
    {
        self.domain.width().saturating_sub(params)
    }
}

/// The equation of the variable with this number.
#[derive(Debug, Drop)]
pub struct Equation {
    pub variable: u32,
    pub body: Expr,
}

impl TryCopy for Variable {
    fn copy(&self, alloc: Global) -> Result<Self, LinFault> {
        let name = self.name.copy(alloc)?;
        let domain = self.domain.copy(alloc)?;
        Ok(Variable {
            name,
            role: self.role,
            domain,
        })
    }
}

impl TryCopy for Equation {
    fn copy(&self, alloc: Global) -> Result<Self, LinFault> {
        let body = copy_of(alloc, &self.body)?;
        Ok(Equation {
            variable: self.variable,
            body,
        })
    }
}

impl TryCopy for Program {
    fn copy(&self, alloc: Global) -> Result<Self, LinFault> {
        let draft = self.draft.copy(alloc)?;
        Ok(Program { draft })
    }
}

/// Parts that are placed and keep the limits and the rules on shapes.
#[derive(Debug, Drop)]
pub struct Program {
    draft: Draft,
}

impl Model for Program {
    ghost use Rattle.std.specs.Coded.{codes};
    ghost use Rattle.az_ast.specs.contracts.expr.Expr as e;
    ghost use Rattle.az_ast.specs.System.{System};
    ghost use Rattle.az_ast.specs.Shapes.{IsProgram};

    ghost Value = { System };

    ghost coded = { Prim.hlevel (codes, e.the_row.coded) };

    ghost view = { λ p. p.draft };

    ghost invariant = { λ p. IsProgram p.draft };
}

/// The first equation of the variable with this number.
pub(crate) fn equation_of(equations: &[Equation], x: u32) -> Option<&Equation>
    ensures { option_copied result ≡ equation_of equations.now x }
{
    equations.iter().find(|equation| equation.variable == x)
}

impl Program {
    /// A limit that is exceeded is answered before the first item that is at fault.
    pub fn new(
        name: Name,
        params: List<Name>,
        pdom: Domain,
        variables: List<Variable>,
        equations: List<Equation>,
    ) -> Result<Program, ShapeFault>
        requires { IsPlaced (record { name = name; params = params; pdom = pdom; variables = variables; equations = equations }) }
        ensures ok { IfOk result (λ p. (p ≡ record { name = name; params = params; pdom = pdom; variables = variables; equations = equations }) × (refusal_of p ≡ None)) }
        ensures rules { IfOk result IsProgram }
        ensures cause { IfErr result (λ fault. refusal_of (record { name = name; params = params; pdom = pdom; variables = variables; equations = equations }) ≡ Some fault) }
    {
        let draft = Draft {
            name,
            params,
            pdom,
            variables,
            equations,
        };
        match draft.refusal() {
            Some(fault) => Err(fault),
            None => {
                draft.rows();
                Ok(Program { draft })
            }
        }
    }

    /// An equal program in memory of its own.
    pub fn copy(&self, alloc: Global) -> Result<Program, ShapeFault>
        ensures ok { IfOk result (λ copied. copied ≡ self.now) }
        ensures cause { IfErr result (λ fault. fault ≡ Memory) }
    {
        copied(alloc, self)
    }

    pub fn name(&self) -> &Name
        ensures { result.now ≡ self.now.name }
    {
        &self.draft.name
    }

    pub fn params(&self) -> &[Name]
        ensures { result.now ≡ self.now.params }
    {
        self.draft.params.as_slice()
    }

    pub fn pdom(&self) -> &Domain
        ensures { result.now ≡ self.now.pdom }
    {
        &self.draft.pdom
    }

    pub fn variables(&self) -> &[Variable]
        ensures value { result.now ≡ self.now.variables }
        ensures rules { IsProgram self.now }
    {
        self.draft.variables.as_slice()
    }

    pub fn equations(&self) -> &[Equation]
        ensures value { result.now ≡ self.now.equations }
        ensures rules { IsProgram self.now }
    {
        self.draft.equations.as_slice()
    }

    /// The equation of the variable with this number; an input has none.
    pub fn equation(&self, variable: u32) -> Option<&Equation>
        requires { variable < length self.now.variables }
        ensures value { option_copied result ≡ equation_of self.now.equations variable }
        ensures none { is_none result ≡ of_variable self.now.variables (λ v. is_input v.role) variable }
    {
        equation_of(self.draft.equations.as_slice(), variable)
    }

    /// Whether every domain in the program has one disjunct.
    pub fn plain(&self) -> bool
        ensures { IsTrue result ↔ IsPlain self.now }
    {
        !self
            .draft
            .some_domain_outside(&OutsideBounds { least: 1, most: 1 })
    }
}
