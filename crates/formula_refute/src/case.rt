//! One case of a formula, by its number.

ghost use Rattle.std.specs.Prelude.{◌≡◌, ◌<◌, ◌≤◌, ◌++◌, [], length, slice_index_or, OnOk, IfErr};
ghost use Rattle.formula_refute.specs.Claims.{claim};
ghost use Rattle.formula_refute.specs.Cases.{cases, most_systems};
ghost use Rattle.formula_refute.specs.declared.fault.RefuteFault.TheVariants.{Memory};

use crate::count::case_count;
use crate::lent::LentRows;
use crate::{Formula, RefuteFault};

/// Appends the rows of the case with this number. The formula has so many cases, and not too many;
/// in `All` the number of the last member's case changes fastest.
pub(crate) fn push_case<'a>(
    rows: &mut LentRows<'a>,
    f: &'a Formula,
    count: u64,
    number: u64,
) -> Result<(), RefuteFault>
    ensures ok { OnOk result (count ≡ length (cases (claim f.now)) → count ≤ most_systems → number < count → rows.new ≡ rows.old ++ slice_index_or (cases (claim f.now)) number []) }
    ensures cause { IfErr result (λ fault. fault ≡ Memory) }
{
    match f {
        Formula::Atom(row) => rows.push(row),
        Formula::All(members) => {
            let mut after = count;
            let mut left = number;
            'all: for member in members.as_slice() {
                let own = case_count(member).max(1);
                after = (after / own).max(1);
                push_case(rows, member, own, left / after)?;
                left %= after;
            }
            Ok(())
        }
        Formula::Any(members) => {
            let mut left = number;
            'any: for member in members.as_slice() {
                let own = case_count(member);
                if left < own {
                    return push_case(rows, member, own, left);
                }
                left -= own;
            }
            Ok(())
        }
    }
}
