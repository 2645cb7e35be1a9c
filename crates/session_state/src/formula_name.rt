//! The formulas of a mapping by name.

ghost use Rattle.std.specs.Prelude.{◌≡◌, IfOk, string_bytes};
ghost use Rattle.session_state.specs.FormulaNames.{formula_text};

use az_lin::Name;
use std::alloc::{AllocError, Global};

/// What a formula speaks of, with the names of its variables. The reads of an equation are numbered from 0.
#[derive(Debug, Drop)]
pub enum FormulaName {
    /// A read comes before what it reads.
    Order {
        reader: Name,
        read: u32,
    },
    /// What is read was stored over.
    Life {
        reader: Name,
        read: u32,
        writer: Name,
    },
    /// An output's value was stored over.
    Keep {
        output: Name,
        writer: Name,
    },
}

pub(crate) fn formula_text(alloc: Global, formula: &FormulaName) -> Result<String, AllocError>
    ensures { IfOk result (λ text. string_bytes text ≡ formula_text formula.now) }
{
    match formula {
        FormulaName::Order { reader, read } => {
            let reader = reader.as_str();
            format!(in alloc; "Order {reader} {read}")
        }
        FormulaName::Life {
            reader,
            read,
            writer,
        } => {
            let reader = reader.as_str();
            let writer = writer.as_str();
            format!(in alloc; "Life {reader} {read} {writer}")
        }
        FormulaName::Keep { output, writer } => {
            let output = output.as_str();
            let writer = writer.as_str();
            format!(in alloc; "Keep {output} {writer}")
        }
    }
}
