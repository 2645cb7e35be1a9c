//! The commands of scripts that are carried out today.

ghost use Rattle.std.specs.Prelude.{◌≡◌, ◌≤◌, OnErr};
ghost use Rattle.alphaz_cli.specs.Tasks.{task_of, word, answer, gives, writes};
ghost use Rattle.session_state.specs.Session.{IsSound, carried};
ghost use Rattle.session_state.specs.Steps.{Takes};
ghost use Rattle.session_state.specs.Writings.{IsLeftWith};

use az_desk::Desk;
use az_lin::{List, Name};
use command_script::{Command as ScriptCommand, KindText, MapText};
use data_commands::{load_table, set_number};
use formula_refute::CaseGate;
use mapping_commands::{
    set_dimension_kinds, set_memory_map, set_space_time_map, set_statement_order,
};
use program_commands::{check_program, load_program, show_program};
use rewrite_commands::{change_basis, inline, remove_unused};
use session_state::{Session, Stop};
use std::alloc::Global;
use std::thread::Threads;
use verify_commands::{verify_target_mapping, write_certificate};

#[derive(Drop)]
pub(crate) enum Task {
    ReadAlphabets {
        file: Name,
    },
    CheckProgram,
    Show,
    ChangeBasis {
        variable: Name,
        map: MapText,
    },
    Inline {
        into: Name,
        target: Name,
    },
    RemoveUnused {
        variable: Name,
    },
    SetDimensionKinds {
        kinds: List<KindText>,
    },
    SetSpaceTimeMap {
        variable: Name,
        map: MapText,
    },
    SetMemoryMap {
        variable: Name,
        space: Name,
        map: MapText,
        factors: List<i128>,
    },
    SetStatementOrder {
        variables: List<Name>,
    },
    VerifyTargetMapping,
    WriteCertificate {
        file: Name,
    },
    SetParameter {
        parameter: Name,
        number: i128,
    },
    ReadInput {
        input: Name,
        file: Name,
    },
}

/// The task of a command, where it is carried out today.
pub(crate) fn task_of(command: ScriptCommand) -> Option<Task>
    ensures { result ≡ task_of command }
{
    let task = match command {
        ScriptCommand::ReadAlphabets { file } => Task::ReadAlphabets { file },
        ScriptCommand::CheckProgram => Task::CheckProgram,
        ScriptCommand::Show => Task::Show,
        ScriptCommand::CoB { variable, map } => Task::ChangeBasis { variable, map },
        ScriptCommand::Inline { into, target } => Task::Inline { into, target },
        ScriptCommand::RemoveUnused { variable } => Task::RemoveUnused { variable },
        ScriptCommand::SetDimensionKinds { kinds } => Task::SetDimensionKinds { kinds },
        ScriptCommand::SetSpaceTimeMap { variable, map } => Task::SetSpaceTimeMap { variable, map },
        ScriptCommand::SetMemoryMap {
            variable,
            space,
            map,
            factors,
        } => Task::SetMemoryMap {
            variable,
            space,
            map,
            factors,
        },
        ScriptCommand::SetStatementOrder { variables } => Task::SetStatementOrder { variables },
        ScriptCommand::VerifyTargetMapping => Task::VerifyTargetMapping,
        ScriptCommand::WriteCertificate { file } => Task::WriteCertificate { file },
        ScriptCommand::SetParameter { parameter, number } => {
            Task::SetParameter { parameter, number }
        }
        ScriptCommand::ReadInput { input, file } => Task::ReadInput { input, file },
        _ => return None,
    };
    Some(task)
}

/// The word with which a task is written.
pub(crate) fn word(task: &Task) -> &'static str
    ensures { result.now ≡ word task.now }
{
    match task {
        Task::ReadAlphabets { .. } => "ReadAlphabets",
        Task::CheckProgram => "CheckProgram",
        Task::Show => "Show",
        Task::ChangeBasis { .. } => "CoB",
        Task::Inline { .. } => "Inline",
        Task::RemoveUnused { .. } => "RemoveUnused",
        Task::SetDimensionKinds { .. } => "setDimensionKinds",
        Task::SetSpaceTimeMap { .. } => "setSpaceTimeMap",
        Task::SetMemoryMap { .. } => "setMemoryMap",
        Task::SetStatementOrder { .. } => "setStatementOrder",
        Task::VerifyTargetMapping => "VerifyTargetMapping",
        Task::WriteCertificate { .. } => "WriteCertificate",
        Task::SetParameter { .. } => "setParameter",
        Task::ReadInput { .. } => "ReadInput",
    }
}

/// What a task's line answers where it is carried out.
pub(crate) fn answer(task: &Task) -> &'static str
    ensures { result.now ≡ answer task.now }
{
    match task {
        Task::VerifyTargetMapping => "yes",
        _ => "ok",
    }
}

/// Carries a task out on the session, and gives the text under its line. It reads at the desk, writes its file last of
/// all, and says nothing. Where it isn't carried out the session is as before. So many workers share the cases of a
/// verification, and the gate is told before each that one of them decides.
pub(crate) fn carry_out<R: Threads + Sync, D: Desk, G: CaseGate + Sync>(
    rt: &R,
    alloc: Global,
    desk: &mut D,
    task: &Task,
    session: &mut Session,
    workers: u32,
    gate: &G,
) -> Result<List<u8>, Stop>
    requires sound { IsSound session.old }
    requires some { 1 ≤ workers }
    requires at_most { workers ≤ 64 }
    ensures answer { Takes (gives task.now (D.seen desk.old).files session.old) (carried session.new result) }
    ensures left { IsLeftWith (writes task.now session.old) (D.seen desk.old) result (D.seen desk.new) }
    ensures kept { OnErr result (session.new ≡ session.old) }
    ensures sound { IsSound session.new }
{
    match task {
        Task::ReadAlphabets { file } => load_program(alloc, desk, session, file.as_str()),
        Task::CheckProgram => check_program(alloc, session),
        Task::Show => show_program(alloc, session),
        Task::ChangeBasis { variable, map } => change_basis(alloc, session, variable, map),
        Task::Inline { into, target } => inline(alloc, session, into, target),
        Task::RemoveUnused { variable } => remove_unused(alloc, session, variable),
        Task::SetDimensionKinds { kinds } => {
            set_dimension_kinds(alloc, session, kinds.as_slice())
        }
        Task::SetSpaceTimeMap { variable, map } => {
            set_space_time_map(alloc, session, variable.as_str(), map)
        }
        Task::SetMemoryMap {
            variable,
            space,
            map,
            factors,
        } => set_memory_map(
            alloc,
            session,
            variable.as_str(),
            space.as_str(),
            map,
            factors.as_slice(),
        ),
        Task::SetStatementOrder { variables } => {
            set_statement_order(alloc, session, variables.as_slice())
        }
        Task::VerifyTargetMapping => verify_target_mapping(rt, alloc, session, workers, gate),
        Task::WriteCertificate { file } => {
            write_certificate(alloc, desk, session, file.as_str())
        }
        Task::SetParameter { parameter, number } => {
            set_number(alloc, session, parameter.as_str(), *number)
        }
        Task::ReadInput { input, file } => {
            load_table(alloc, desk, session, input.as_str(), file.as_str())
        }
    }
}
