//! From the text to the program.

ghost use Rattle.std.specs.Prelude.{◌≡◌, IfOk, IsErrOf, Result};
ghost use Rattle.az_ast.specs.System.{System};
ghost use Rattle.az_ast.specs.Writable.{IsWritable};
ghost use Rattle.alphabets_read.specs.declared.fault.ReadFault.{ReadFault};
ghost use Rattle.alphabets_read.specs.declared.fault.ReadFault.TheVariants.{Memory};
ghost use Rattle.alphabets_read.specs.Answers.{IsAnswerOf};

use crate::ReadFault;
use az_ast::Program;
use program_grammar::read_text;
use program_names::resolve;
use std::alloc::Global;

/// What the grammar takes, with its names resolved.
fn read(alloc: Global, text: &[u8]) -> Result<Program, ReadFault>
    ensures answer { IsAnswerOf text.now result }
    ensures writable { IfOk result (λ p. IsWritable p) }
{
    let written = read_text(alloc, text)?;
    let program = resolve(alloc, &written)?;
    Ok(program)
}

/// Reads a program, after the Alphabets language of AlphaZ.
///
/// The first of these is answered: a bad byte or a wide number; the size of an equation or the syntax,
/// whichever a reading from left to right meets first; the other limits; the first item that is at fault.
pub fn read_program(alloc: Global, text: &[u8]) -> Result<Program, ReadFault>
    ensures answer { IsAnswerOf text.now result }
    // No other answer fits the text, but that memory ran out.
    ensures only { (other : Result System ReadFault) → IsAnswerOf text.now other
        → (IsErrOf other Memory → ⊥) → (IsErrOf result Memory → ⊥) → result ≡ other }
    // What is read can be written: its names may be names, and its cases have branches.
    ensures writable { IfOk result (λ p. IsWritable p) }
{
    read(alloc, text)
}
