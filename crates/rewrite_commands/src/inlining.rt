//! A local's body put in where another equation reads it.

ghost use Rattle.session_state.specs.Steps.{TakesAlone};
ghost use Rattle.rewrite_commands.specs.Changes.{inlining};

use crate::stops::unchanged;
use az_ast::Checked;
use az_lin::Name;
use inline_eqs::inline;
use session_state::Stop;
use std::alloc::Global;

pub(crate) fn inlined(
    alloc: Global,
    checked: &Checked,
    into: &Name,
    target: &Name,
) -> Result<Checked, Stop>
    ensures { TakesAlone (inlining into.now target.now checked.now) result }
{
    match inline(alloc, checked, into, target) {
        Ok(changed) => {
            let _ = changed.program();
            Ok(changed)
        }
        Err(fault) => Err(unchanged(alloc, checked.program(), fault)),
    }
}
