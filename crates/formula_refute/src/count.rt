//! How many cases a formula has, found before they are made.

ghost use Rattle.std.specs.Prelude.{◌≡◌, min, length};
ghost use Rattle.formula_refute.specs.Claims.{claim};
ghost use Rattle.formula_refute.specs.Cases.{cases, most_systems};

use crate::Formula;

/// The most cases that a formula may have.
pub(crate) const MOST_SYSTEMS: u64 = 1 << 17;

/// Stands for each greater number too.
const TOO_MANY: u64 = MOST_SYSTEMS + 1;

/// The number of cases, as far as 2^17 + 1, one more than there may be.
pub fn case_count(f: &Formula) -> u64
    ensures { result ≡ min (length (cases (claim f.now))) 131073 }
{
    match f {
        Formula::Atom(_) => 1,
        Formula::All(members) => {
            let mut count = 1;
            'all: for member in members.as_slice() {
                count = (count * case_count(member)).min(TOO_MANY);
            }
            count
        }
        Formula::Any(members) => {
            let mut count = 0;
            'any: for member in members.as_slice() {
                count = (count + case_count(member)).min(TOO_MANY);
            }
            count
        }
    }
}
