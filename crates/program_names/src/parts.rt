//! The parts of the program of a text.

ghost use Rattle.std.specs.Prelude.{◌≡◌, None, IfOk, IfErr};
ghost use Rattle.az_lin.specs.declared.fault.LinFault.TheVariants.{Memory};
ghost use Rattle.az_ast.specs.Placed.{IsPlaced};
ghost use Rattle.program_names.specs.Refusals.{refusal_of};
ghost use Rattle.program_names.specs.Resolved.{system_of};

use crate::domains::plain_domain;
use crate::equations::equations;
use crate::variables::{declared_names, variables};
use az_ast::{Equation, Variable};
use az_lin::{Domain, LinFault, List, Name, TryCopy};
use program_grammar::ProgramText;
use side_rows::Scope;
use std::alloc::Global;

#[derive(Drop)]
pub(crate) struct Parts {
    pub name: Name,
    pub params: List<Name>,
    pub pdom: Domain,
    pub variables: List<Variable>,
    pub equations: List<Equation>,
}

/// The parts of the program of a text that isn't refused.
#[tactic(auto, using(crate::proofs::Accepted::few_names, crate::proofs::Accepted::narrow_equations, crate::proofs::Accepted::header_fits, crate::proofs::Accepted::declarations_fit, crate::proofs::Accepted::literals_fit, crate::proofs::Accepted::equations_fit, crate::proofs::SystemPlaced::system_placed))]
pub(crate) fn resolved(alloc: Global, text: &ProgramText) -> Result<Parts, LinFault>
    requires { refusal_of text.now ≡ None }
    ensures ok { IfOk result (λ p. record { name = p.name; params = p.params; pdom = p.pdom; variables = p.variables; equations = p.equations } ≡ system_of text.now) }
    ensures placed { IsPlaced (system_of text.now) }
    ensures cause { IfErr result (λ fault. fault ≡ Memory) }
{
    let outer = text.params.as_slice();
    let scope = Scope::new(alloc).wider(alloc, outer)?;
    let names = declared_names(alloc, text)?;
    let pdom = plain_domain(alloc, &scope, text.domain.as_slice())?;
    let variables = variables(alloc, text)?;
    let equations = equations(alloc, names.as_slice(), outer, text.equations.as_slice())?;
    let name = text.name.copy(alloc)?;
    let params = text.params.copy(alloc)?;
    Ok(Parts {
        name,
        params,
        pdom,
        variables,
        equations,
    })
}
