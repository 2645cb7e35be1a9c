//! A certified program from a file.

ghost use Rattle.std.specs.Prelude.{◌≡◌, IfOk, IfErr};
ghost use Rattle.program_commands.specs.Programs.{text_refusal, check_refusal, variable_name, program_in, certified, read_alphabets};
ghost use Rattle.session_state.specs.Endings.{IsLeft};
ghost use Rattle.session_state.specs.Steps.{Takes, TakesAlone, IsStopFor};
ghost use Rattle.session_state.specs.declared.stop.Stop.TheVariants.{Memory};

use alphabets_read::{ReadFault, read_program};
use az_ast::{Checked, Program, Reason};
use az_desk::Desk;
use az_lin::Name;
use az_text::LexFault;
use domain_check::{CertifyFault, CheckNo, certify};
use session_state::{Refusal, Spot, Stop, TextKind, name, text_of, text_stop};
use std::alloc::Global;

/// Why a text that isn't read stops a command.
fn unread(alloc: Global, file: &str, fault: ReadFault) -> Stop
    ensures { IsStopFor (text_refusal file.now fault) result }
{
    match fault {
        ReadFault::Lex(LexFault::BadByte(place)) => {
            text_stop(alloc, file, TextKind::BadByte, place)
        }
        ReadFault::Lex(LexFault::WideNumber(place)) => {
            text_stop(alloc, file, TextKind::WideNumber, place)
        }
        ReadFault::Syntax(place) => text_stop(alloc, file, TextKind::Syntax, place),
        ReadFault::Shape { kind, item } => Stop::Refused(Refusal::Shape(kind, item)),
        ReadFault::Limit(limit) => Stop::Refused(Refusal::Limited(limit)),
        ReadFault::Lex(LexFault::Memory) | ReadFault::Memory => Stop::Memory,
    }
}

fn program_in(alloc: Global, file: &str, text: &[u8]) -> Result<Program, Stop>
    ensures { TakesAlone (program_in file.now text.now) result }
{
    match read_program(alloc, text) {
        Ok(program) => Ok(program),
        Err(fault) => Err(unread(alloc, file, fault)),
    }
}

fn variable_name(alloc: Global, program: &Program, variable: u32) -> Result<Name, Stop>
    ensures found { IfOk result (λ name. name ≡ variable_name program.now variable) }
    ensures cause { IfErr result (λ stop. stop ≡ Memory) }
{
    match program.variables().get(variable as usize) {
        Some(variable) => name(alloc, variable.name.as_str()),
        None => name(alloc, ""),
    }
}

/// Why a program that isn't certified stops a command.
pub fn uncertified(alloc: Global, program: &Program, fault: CertifyFault) -> Stop
    ensures { IsStopFor (check_refusal program.now fault) result }
{
    match fault {
        CertifyFault::No(
            CheckNo {
                kind,
                variable,
                case_no,
                point,
            },
        ) => match variable_name(alloc, program, variable) {
            Ok(variable) => Stop::Refused(Refusal::ProgramNo(kind, variable, case_no, point)),
            Err(stop) => stop,
        },
        CertifyFault::Overflow {
            kind,
            variable,
            case_no,
        } => match variable_name(alloc, program, variable) {
            Ok(variable) => Stop::Refused(Refusal::Overflow(Spot::Check {
                kind,
                variable,
                case_no,
            })),
            Err(stop) => stop,
        },
        CertifyFault::Entry => Stop::Refused(Refusal::Command(Reason::Entry)),
        CertifyFault::Limit(limit) => Stop::Refused(Refusal::Limited(limit)),
        CertifyFault::Memory => Stop::Memory,
    }
}

fn certified(alloc: Global, program: Program) -> Result<Checked, Stop>
    ensures { TakesAlone (certified program) result }
{
    match certify(alloc, program) {
        Ok(checked) => Ok(checked),
        Err((program, fault)) => Err(uncertified(alloc, &program, fault)),
    }
}

/// Reads the program in the file and certifies it.
pub fn read_alphabets<D: Desk>(alloc: Global, desk: &mut D, file: &str) -> Result<Checked, Stop>
    ensures answer { Takes (read_alphabets (D.seen desk.old).files file.now) result }
    ensures left { IsLeft (D.seen desk.old) result (D.seen desk.new) }
{
    let text = text_of(alloc, desk, file)?;
    let program = program_in(alloc, file, text.as_slice())?;
    certified(alloc, program)
}
