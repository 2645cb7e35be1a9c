//! Why a text is no program.

ghost use Rattle.std.specs.Prelude.{◌≡◌, ◌+◌, ◌≤◌, [], length, IfOk, IfErr};
ghost use Rattle.az_lin.specs.declared.fault.LinFault.TheVariants.{Memory};
ghost use Rattle.az_ast.specs.Shapes.{first_kind, kinds_after};
ghost use Rattle.program_names.specs.Refusals.{declaration_kind, missing_kinds, shape_of, refusal_of};
ghost use Rattle.program_names.specs.Resolved.{declarations};

use crate::faults::{declaration_fault, equation_fault, missing_fault};
use crate::kinds::header_kind;
use crate::limits::limit;
use az_ast::ShapeFault;
use az_lin::LinFault;
use program_grammar::ProgramText;
use std::alloc::Global;

/// The number of the declarations.
fn count(text: &ProgramText) -> u32
    requires { length text.now.inputs + length text.now.outputs + length text.now.locals ≤ 256 }
    ensures value { result ≡ length (declarations text.now) }
    ensures few { length (declarations text.now) ≤ 256 }
{
    (text.inputs.len() + text.outputs.len() + text.locals.len()) as u32
}

/// The first declaration at fault.
#[tactic(auto, using(crate::proofs::ItemParts::declared_parts))]
fn declared_fault(alloc: Global, text: &ProgramText) -> Result<Option<ShapeFault>, LinFault>
    requires { length text.now.inputs + length text.now.outputs + length text.now.locals ≤ 256 }
    ensures ok { IfOk result (λ fault. fault ≡ first_kind 1 (kinds_after (declaration_kind text.now) [] (declarations text.now))) }
    ensures cause { IfErr result (λ fault. fault ≡ Memory) }
{
    let inputs = text.inputs.as_slice();
    let outputs = text.outputs.as_slice();
    if let Some(fault) = declaration_fault(alloc, text, &[], &[], inputs, 1)? {
        return Ok(Some(fault));
    }
    let second = 1 + inputs.len() as u32;
    if let Some(fault) = declaration_fault(alloc, text, &[], inputs, outputs, second)? {
        return Ok(Some(fault));
    }
    let third = second + outputs.len() as u32;
    declaration_fault(alloc, text, inputs, outputs, text.locals.as_slice(), third)
}

/// The first output or local without an equation.
#[tactic(auto, using(crate::proofs::ItemParts::missing_parts))]
fn lacking_fault(text: &ProgramText) -> Option<ShapeFault>
    requires { length text.now.inputs + length text.now.outputs + length text.now.locals ≤ 256 }
    ensures { result ≡ first_kind (1 + length text.now.inputs) (missing_kinds text.now) }
{
    let equations = text.equations.as_slice();
    let first = 1 + text.inputs.len() as u32;
    if let Some(fault) = missing_fault(equations, text.outputs.as_slice(), first) {
        return Some(fault);
    }
    let second = first + text.outputs.len() as u32;
    missing_fault(equations, text.locals.as_slice(), second)
}

/// The first item at fault, with its first kind.
#[tactic(auto, using(crate::proofs::ItemParts::shape_parts))]
fn shape(alloc: Global, text: &ProgramText) -> Result<Option<ShapeFault>, LinFault>
    requires { length text.now.inputs + length text.now.outputs + length text.now.locals ≤ 256 }
    ensures ok { IfOk result (λ fault. fault ≡ shape_of text.now) }
    ensures cause { IfErr result (λ fault. fault ≡ Memory) }
{
    if let Some(kind) = header_kind(alloc, text)? {
        return Ok(Some(ShapeFault::Shape { kind, item: 0 }));
    }
    if let Some(fault) = declared_fault(alloc, text)? {
        return Ok(Some(fault));
    }
    let item = 1 + count(text);
    if let Some(fault) = equation_fault(alloc, text, item)? {
        return Ok(Some(fault));
    }
    Ok(lacking_fault(text))
}

/// The first limit that is exceeded, or else the first item at fault.
pub(crate) fn refusal(alloc: Global, text: &ProgramText) -> Result<Option<ShapeFault>, LinFault>
    ensures ok { IfOk result (λ fault. fault ≡ refusal_of text.now) }
    ensures cause { IfErr result (λ fault. fault ≡ Memory) }
{
    if let Some(fault) = limit(alloc, text)? {
        return Ok(Some(fault));
    }
    shape(alloc, text)
}
