//! Commands as words, for tables.

use az_lin::{List, Name};
use command_script::{Command, KindText, MapText, TermText};
use std::alloc::{AllocError, Global};

fn names(alloc: Global, names: &[Name]) -> Result<String, AllocError> {
    let mut all = String::new(alloc);
    for name in names {
        let name = name.as_str();
        write!(all, "{name} ")?;
    }
    Ok(all)
}

fn numbers(alloc: Global, numbers: &[i128]) -> Result<String, AllocError> {
    let mut all = String::new(alloc);
    for number in numbers {
        let number = *number;
        write!(all, "{number} ")?;
    }
    Ok(all)
}

fn row(alloc: Global, row: &[TermText]) -> Result<String, AllocError> {
    let mut all = String::new(alloc);
    for term in row {
        let factor = term.factor;
        write!(all, "{factor} ")?;
        if let Some(name) = &term.name {
            let name = name.as_str();
            write!(all, "{name} ")?;
        }
    }
    Ok(all)
}

fn rows(alloc: Global, rows: &[List<TermText>]) -> Result<String, AllocError> {
    let mut all = String::new(alloc);
    for terms in rows {
        let terms = row(alloc, terms.as_slice())?;
        write!(all, "{terms}; ")?;
    }
    Ok(all)
}

fn map(alloc: Global, map: &MapText) -> Result<String, AllocError> {
    let indices = names(alloc, map.indices.as_slice())?;
    let rows = rows(alloc, map.rows.as_slice())?;
    format!(in alloc; "{indices}-> {rows}")
}

fn kinds(alloc: Global, kinds: &[KindText]) -> Result<String, AllocError> {
    let mut all = String::new(alloc);
    for kind in kinds {
        match kind {
            KindText::Outer => all.push_str("outer ")?,
            KindText::Band(size) => {
                let size = *size;
                write!(all, "band {size} ")?;
            }
            KindText::Processor(size) => {
                let size = *size;
                write!(all, "processor {size} ")?;
            }
            KindText::Inner => all.push_str("inner ")?,
        }
    }
    Ok(all)
}

/// A command with names and lists of them.
fn named(alloc: Global, command: &Command) -> Result<String, AllocError> {
    let (word, names) = match command {
        Command::ReadAlphabets { file } => ("ReadAlphabets", [file.as_str(), ""]),
        Command::Inline { into, target } => ("Inline", [into.as_str(), target.as_str()]),
        Command::RemoveUnused { variable } => ("RemoveUnused", [variable.as_str(), ""]),
        Command::FactorReduction { variable } => ("FactorReduction", [variable.as_str(), ""]),
        Command::WriteCertificate { file } => ("WriteCertificate", [file.as_str(), ""]),
        Command::ReadInput { input, file } => ("ReadInput", [input.as_str(), file.as_str()]),
        Command::CheckProgram => ("CheckProgram", ["", ""]),
        Command::Show => ("Show", ["", ""]),
        Command::Normalize => ("Normalize", ["", ""]),
        Command::VerifyTargetMapping => ("VerifyTargetMapping", ["", ""]),
        Command::Run => ("Run", ["", ""]),
        Command::ShowLoops => ("ShowLoops", ["", ""]),
        Command::RunLoops => ("RunLoops", ["", ""]),
        _ => ("another", ["", ""]),
    };
    let [first, second] = names;
    format!(in alloc; "{word} {first} {second}")
}

/// A command with its word first and its arguments in their order.
pub fn command(alloc: Global, command: &Command) -> Result<String, AllocError> {
    match command {
        Command::FindSchedule { variables } => {
            let variables = names(alloc, variables.as_slice())?;
            format!(in alloc; "FindSchedule {variables}")
        }
        Command::CoB {
            variable,
            map: text,
        } => {
            let (variable, text) = (variable.as_str(), map(alloc, text)?);
            format!(in alloc; "CoB {variable} {text}")
        }
        Command::SimplifyReduction { variable, vector } => {
            let (variable, vector) = (variable.as_str(), numbers(alloc, vector.as_slice())?);
            format!(in alloc; "SimplifyReduction {variable} {vector}")
        }
        Command::SplitReduction { variable, outer } => {
            let (variable, outer) = (variable.as_str(), *outer);
            format!(in alloc; "SplitReduction {variable} {outer}")
        }
        Command::SetDimensionKinds { kinds: list } => {
            let list = kinds(alloc, list.as_slice())?;
            format!(in alloc; "setDimensionKinds {list}")
        }
        Command::SetSpaceTimeMap {
            variable,
            map: text,
        } => {
            let (variable, text) = (variable.as_str(), map(alloc, text)?);
            format!(in alloc; "setSpaceTimeMap {variable} {text}")
        }
        Command::SetMemoryMap {
            variable,
            space,
            map: text,
            factors,
        } => {
            let (variable, space) = (variable.as_str(), space.as_str());
            let (text, factors) = (map(alloc, text)?, numbers(alloc, factors.as_slice())?);
            format!(in alloc; "setMemoryMap {variable} {space} {text}{factors}")
        }
        Command::SetStatementOrder { variables } => {
            let variables = names(alloc, variables.as_slice())?;
            format!(in alloc; "setStatementOrder {variables}")
        }
        Command::SetParameter { parameter, number } => {
            let (parameter, number) = (parameter.as_str(), *number);
            format!(in alloc; "setParameter {parameter} {number}")
        }
        Command::Interleave { workers, turns } => {
            let (workers, turns) = (*workers, numbers(alloc, turns.as_slice())?);
            format!(in alloc; "Interleave {workers} {turns}")
        }
        Command::SpreadReduce { variable, point } => {
            let (variable, point) = (variable.as_str(), numbers(alloc, point.as_slice())?);
            format!(in alloc; "SpreadReduce {variable} {point}")
        }
        other => named(alloc, other),
    }
}
