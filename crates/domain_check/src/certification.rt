//! Programs certified or refused.

ghost use Rattle.std.specs.Prelude.{◌≡◌, IfOk, IfErr};
ghost use Rattle.az_ast.specs.Certified.{IsCertified};
ghost use Rattle.az_ast.specs.Shapes.{IsProgram};
ghost use Rattle.domain_check.specs.Promise.{Certifies};
ghost use Rattle.domain_check.specs.Inner.Ready.{IsReadyProgram};
ghost use Rattle.domain_check.specs.Inner.Walked.{Judges};

use crate::CertifyFault;
use crate::build::BuildFault;
use crate::decide::decide;
use crate::survey::survey;
use az_ast::{Checked, Program};
use az_lin::Limit;
use std::alloc::Global;

/// Lets a caller know that the program keeps the rules, and that each of its places is ready.
fn ready(program: &Program)
    ensures rules { IsProgram program.now }
    ensures ready { IsReadyProgram program.now }
{
    let _ = program.variables();
}

fn judge(alloc: Global, program: &Program) -> Result<(), CertifyFault>
    ensures { Judges program.now result }
{
    ready(program);
    match survey(alloc, program) {
        Ok(true) => Err(CertifyFault::Limit(Limit::Systems)),
        Ok(false) => decide(alloc, program),
        Err(BuildFault::Entry) => Err(CertifyFault::Entry),
        Err(BuildFault::Memory) => Err(CertifyFault::Memory),
    }
}

/// Certifies the program, or hands it back with why it is refused.
pub fn certify(alloc: Global, program: Program) -> Result<Checked, (Program, CertifyFault)>
    ensures answer { Certifies program result }
    ensures same { IfOk result (λ checked. checked ≡ program) }
    ensures certified { IfOk result IsCertified }
    ensures handed_back { IfErr result (λ refused. refused.0 ≡ program) }
{
    match judge(alloc, &program) {
        Ok(()) => Ok(Checked::new(program)),
        Err(fault) => Err((program, fault)),
    }
}
