//! `eval PROGRAM BINDING..`: the output rows of a program.

ghost use Rattle.alphaz_cli.specs.Evaluation.{evaluated, evaluation};
ghost use Rattle.session_state.specs.Endings.{IsLeft};
ghost use Rattle.session_state.specs.Steps.{Takes};

use crate::bound::{read_all, set_all};
use az_ast::Checked;
use az_desk::Desk;
use az_lin::List;
use command_words::Evaluation;
use data_commands::output_rows;
use program_commands::read_alphabets;
use session_state::Stop;
use std::alloc::Global;

/// What follows when the program is read: its parameters, its tables, and then its rows.
fn evaluated<D: Desk>(
    alloc: Global,
    desk: &mut D,
    asked: &Evaluation,
    checked: &Checked,
) -> Result<List<u8>, Stop>
    ensures answer { Takes (evaluated (D.seen desk.old).files asked.now checked.now) result }
    ensures left { IsLeft (D.seen desk.old) result (D.seen desk.new) }
{
    let program = checked.program();
    let bindings = asked.bindings.as_slice();
    let settings = set_all(alloc, program, bindings)?;
    let inputs = read_all(alloc, desk, program, settings.as_slice(), bindings)?;
    output_rows(alloc, checked, settings.as_slice(), &inputs)
}

/// Reads the program, sets and reads what is bound, and evaluates.
pub(crate) fn eval<D: Desk>(
    alloc: Global,
    desk: &mut D,
    asked: &Evaluation,
) -> Result<List<u8>, Stop>
    ensures answer { Takes (evaluation (D.seen desk.old).files asked.now) result }
    ensures left { IsLeft (D.seen desk.old) result (D.seen desk.new) }
{
    let checked = read_alphabets(alloc, desk, asked.program.as_str())?;
    evaluated(alloc, desk, asked, &checked)
}
