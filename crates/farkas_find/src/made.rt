//! The rows that pairs of rows give.

ghost use Rattle.std.specs.Prelude.{◌≡◌, ◌<◌, ◌+◌, ◌^◌, ◌++◌, length, map, All, IfOk, IfErr, MatchOption};
ghost use Rattle.az_lin.specs.declared.fault.LinFault.TheVariants.{Memory};
ghost use Rattle.farkas_find.specs.Combining.{HaveWidth, IsPair, FitsAt, combined_at, step_at, numbered_from};

use crate::choice::Pair;
use crate::combine::combined;
use crate::numbered::{Numbered, at};
use az_lin::{LinFault, Step};
use std::alloc::Global;

/// The row of each pair, numbered from `next` on, by a step each. `None` exactly where a number on
/// the way leaves ±(2^127 - 1).
pub(crate) fn made(
    alloc: Global,
    column: usize,
    rows: &[Numbered],
    pairs: &[Pair],
    next: u32,
    steps: &mut Vec<Step>,
    width: usize,
) -> Result<Option<Vec<Numbered>>, LinFault>
    requires inside { column < width }
    requires widths { HaveWidth width rows.now }
    requires pairs { All (IsPair column rows.now) pairs.now }
    requires numbers { next + length pairs.now < 2 ^ 32 }
    ensures exact { IfOk result (λ got. MatchOption got (¬ All (FitsAt column rows.now) pairs.now)
        (λ made. All (FitsAt column rows.now) pairs.now
        × (made.items ≡ numbered_from next (map (combined_at column rows.now) pairs.now))
        × (steps.new.items ≡ steps.old.items ++ map (step_at column rows.now) pairs.now))) }
    ensures cause { IfErr result (λ fault. fault ≡ Memory) }
{
    let mut made = Vec::with_capacity(alloc, pairs.len())?;
    let mut number = next;
    'pairs: for pair in pairs {
        let plus = at(rows, pair.plus);
        let minus = at(rows, pair.minus);
        let Some(new) = combined(alloc, column, plus, minus)? else {
            return Ok(None);
        };
        steps.push(new.step)?;
        made.push(Numbered {
            row: new.row,
            number,
        })?;
        number += 1;
    }
    Ok(Some(made))
}
