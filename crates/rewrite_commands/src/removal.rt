//! A local left out that no other equation reads.

ghost use Rattle.std.specs.Prelude.{◌≡◌};
ghost use Rattle.session_state.specs.Steps.{TakesAlone};
ghost use Rattle.rewrite_commands.specs.Changes.{removal};
ghost use Rattle.rewrite_commands.specs.Inner.{number_before, fault_before, change_before};

use crate::stops::unchanged;
use az_ast::{Checked, Program};
use az_lin::Name;
use domain_check::{CertifyFault, CheckNo};
use inline_eqs::remove_unused;
use rewriting::{ChangeFault, number_of, rules};
use session_state::Stop;
use std::alloc::Global;

/// The number that a variable had before this one went.
fn number_before(gone: u32, x: u32) -> u32
    ensures { result ≡ number_before gone x }
{
    if x < gone { x } else { x.saturating_add(1) }
}

/// A fault of the program without the variable, with the numbers before.
fn fault_before(gone: u32, fault: CertifyFault) -> CertifyFault
    ensures { result ≡ fault_before gone fault }
{
    match fault {
        CertifyFault::No(
            CheckNo {
                kind,
                variable,
                case_no,
                point,
            },
        ) => CertifyFault::No(CheckNo {
            kind,
            variable: number_before(gone, variable),
            case_no,
            point,
        }),
        CertifyFault::Overflow {
            kind,
            variable,
            case_no,
        } => CertifyFault::Overflow {
            kind,
            variable: number_before(gone, variable),
            case_no,
        },
        fault => fault,
    }
}

/// The fault of leaving out the variable with the name, with the numbers before.
fn change_before(program: &Program, name: &Name, fault: ChangeFault) -> ChangeFault
    ensures { result ≡ change_before program.now name.now fault }
{
    let Some(gone) = number_of(program, name) else {
        return fault;
    };
    match fault {
        ChangeFault::Certify(fault) => ChangeFault::Certify(fault_before(gone, fault)),
        fault => fault,
    }
}

pub(crate) fn without(alloc: Global, checked: &Checked, name: &Name) -> Result<Checked, Stop>
    ensures { TakesAlone (removal name.now checked.now) result }
{
    let program = checked.program();
    rules(program);
    match remove_unused(alloc, checked, name) {
        Ok(changed) => {
            let _ = changed.program();
            Ok(changed)
        }
        Err(fault) => Err(unchanged(alloc, program, change_before(program, name, fault))),
    }
}
