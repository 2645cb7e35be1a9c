//! The row that two rows of opposite sign in a column give without that column.

ghost use Rattle.std.specs.Prelude.{◌≡◌, ◌≢◌, ◌<◌, length, pos, IfOk, IfErr, MatchOption};
ghost use Rattle.az_lin.specs.Affine.{IsWide};
ghost use Rattle.az_lin.specs.CommonDivisor.{gcd_of_all};
ghost use Rattle.az_lin.specs.declared.fault.LinFault.TheVariants.{Memory};
ghost use Rattle.farkas_find.specs.Tidying.{coef_at, rounded};
ghost use Rattle.farkas_find.specs.Combining.{plus_weight, minus_weight, at_least_one, sum_without, combined, combining_step, Fits};

use crate::numbered::Numbered;
use crate::rounding::rounded;
use az_lin::{ExactRow, LinFault, Step, Weights, gcd};
use std::alloc::Global;

/// The weights with which two rows cancel in a column. Neither is 0 there.
fn weights(column: usize, plus: &Numbered, minus: &Numbered) -> Weights
    requires plus_width { column < length plus.now.row.coefs }
    requires minus_width { column < length minus.now.row.coefs }
    requires nonzero { coef_at column plus.now ≢ pos 0 }
    ensures { result ≡ record {
      a = plus_weight column plus.now minus.now;
      b = minus_weight column plus.now minus.now;
    } }
{
    let p = plus.coef(column).unsigned_abs();
    let q = minus.coef(column).unsigned_abs();
    let common = gcd(p, q);
    Weights {
        a: (q / common) as i128,
        b: (p / common) as i128,
    }
}

/// A row that two rows give, and the step that makes it.
#[derive(Debug, Drop)]
pub(crate) struct NewRow {
    pub(crate) row: ExactRow,
    pub(crate) step: Step,
}

/// `None` exactly where a number on the way leaves ±(2^127 - 1).
#[tactic(auto, unfolding(crate::specs::Combining::combined, crate::specs::Combining::sum_without, crate::specs::Combining::combining_step, crate::specs::Combining::Fits))]
pub(crate) fn combined(
    alloc: Global,
    column: usize,
    plus: &Numbered,
    minus: &Numbered,
) -> Result<Option<NewRow>, LinFault>
    requires width { length plus.now.row.coefs ≡ length minus.now.row.coefs }
    requires inside { column < length plus.now.row.coefs }
    requires nonzero { coef_at column plus.now ≢ pos 0 }
    ensures exact { IfOk result (λ got. MatchOption got (¬ Fits column plus.now minus.now)
        (λ it. Fits column plus.now minus.now × (it.row ≡ combined column plus.now minus.now)
        × (it.step ≡ combining_step column plus.now minus.now))) }
    ensures cause { IfErr result (λ fault. fault ≡ Memory) }
{
    let weights = weights(column, plus, minus);
    let Some(sum) = ExactRow::combination(alloc, &weights, &plus.row.view(), &minus.row.view())?
    else {
        return Ok(None);
    };
    let rounded = rounded(sum);
    let step = Step {
        a: weights.a,
        i: plus.number,
        b: weights.b,
        j: minus.number,
        g: rounded.divisor,
    };
    Ok(Some(NewRow {
        row: rounded.row,
        step,
    }))
}
