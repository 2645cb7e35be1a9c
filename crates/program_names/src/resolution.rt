//! From a program as written to the program that it means.

ghost use Rattle.std.specs.Prelude.{◌≡◌, None, IfOk, IfErr};
ghost use Rattle.az_ast.specs.declared.fault.ShapeFault.TheVariants.{Memory};
ghost use Rattle.az_ast.specs.Writable.{IsWritable};
ghost use Rattle.program_grammar.specs.Written.{IsWritten};
ghost use Rattle.program_names.specs.Answers.{Resolves};
ghost use Rattle.program_names.specs.Refusals.{refusal_of};
ghost use Rattle.program_names.specs.Resolved.{system_of};

use crate::parts::resolved;
use crate::refusal::refusal;
use az_ast::{Program, ShapeFault};
use program_grammar::ProgramText;
use std::alloc::Global;

/// The program of a text that isn't refused, and whose parts so aren't refused.
#[tactic(auto, using(crate::proofs::NothingRefused::nothing_refused))]
fn program(alloc: Global, text: &ProgramText) -> Result<Program, ShapeFault>
    requires { refusal_of text.now ≡ None }
    ensures ok { IfOk result (λ p. p ≡ system_of text.now) }
    ensures cause { IfErr result (λ fault. fault ≡ Memory) }
{
    let Ok(parts) = resolved(alloc, text) else {
        return Err(ShapeFault::Memory);
    };
    match Program::new(
        parts.name,
        parts.params,
        parts.pdom,
        parts.variables,
        parts.equations,
    ) {
        Ok(program) => Ok(program),
        Err(_) => unreachable!(),
    }
}

/// The program that a text means, or the first limit that it exceeds, or else its first item that is at
/// fault: item 0 is the header, the declarations and then the equations follow.
#[tactic(auto, using(crate::proofs::WritableKept::writable_kept))]
pub fn resolve(alloc: Global, text: &ProgramText) -> Result<Program, ShapeFault>
    ensures answer { Resolves text.now result }
    // The program of a text whose names may be names and whose cases have branches can be written.
    ensures writable { IsWritten text.now → IfOk result (λ p. IsWritable p) }
{
    match refusal(alloc, text) {
        Ok(None) => program(alloc, text),
        Ok(Some(fault)) => Err(fault),
        Err(_) => Err(ShapeFault::Memory),
    }
}
