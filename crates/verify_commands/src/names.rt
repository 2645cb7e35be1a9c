//! The names of a mapping's formulas.

ghost use Rattle.std.specs.Prelude.{◌≡◌, IfErr, IfOk};
ghost use Rattle.session_state.specs.declared.stop.Stop.TheVariants.{Memory};
ghost use Rattle.target_map.specs.Refusals.{name_of};
ghost use Rattle.verify_commands.specs.Verification.{formula_name};

use az_ast::Program;
use az_lin::Name;
use session_state::{FormulaName, Stop, name};
use std::alloc::Global;
use target_map::Which;

fn name_of(alloc: Global, program: &Program, variable: u32) -> Result<Name, Stop>
    ensures found { IfOk result (λ name. name ≡ name_of program.now variable) }
    ensures cause { IfErr result (λ stop. stop ≡ Memory) }
{
    match program.variables().get(variable as usize) {
        Some(variable) => name(alloc, variable.name.as_str()),
        None => name(alloc, ""),
    }
}

/// The formula with the names of its variables.
pub(crate) fn formula_name(
    alloc: Global,
    program: &Program,
    which: Which,
) -> Result<FormulaName, Stop>
    ensures named { IfOk result (λ formula. formula ≡ formula_name program.now which) }
    ensures cause { IfErr result (λ stop. stop ≡ Memory) }
{
    match which {
        Which::Order { reader, read } => {
            let reader = name_of(alloc, program, reader)?;
            Ok(FormulaName::Order { reader, read })
        }
        Which::Life {
            reader,
            read,
            writer,
        } => {
            let reader = name_of(alloc, program, reader)?;
            let writer = name_of(alloc, program, writer)?;
            Ok(FormulaName::Life {
                reader,
                read,
                writer,
            })
        }
        Which::Keep { output, writer } => {
            let output = name_of(alloc, program, output)?;
            let writer = name_of(alloc, program, writer)?;
            Ok(FormulaName::Keep { output, writer })
        }
    }
}
