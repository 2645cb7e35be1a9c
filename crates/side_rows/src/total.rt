//! Sums of factors that are decided exactly: a factor has up to 128 bits, and a side any number of terms.

ghost use Rattle.std.specs.Prelude.{◌≡◌, ◌+◌, ◌*◌, ◌^◌, ◌<◌, ◌≤◌, length, pos, ◌+ℤ◌, ◌*ℤ◌, ◌-ℤ◌, ◌≤ℤ◌, ◌<ℤ◌, unsigned_abs, Some, None, if◌then◌else◌};
ghost use Rattle.side_rows.specs.Columns.{column_of};
ghost use Rattle.side_rows.specs.Sides.{signed, sum_of};
ghost use Rattle.side_rows.specs.Totals.{IsTotal, total_of, number_of};
ghost use Rattle.side_rows.specs.Entries.{is_out};
ghost use Rattle.side_rows.specs.Decisions.{Decides};

use crate::column::Column;
use grammar_rules::Term;

/// The low part of a total lies below this number.
const LIMB: i128 = 1 << 96;

const FACTOR_LIMB: u128 = 1 << 96;

/// The greatest magnitude of a stored entry.
const MOST_ENTRY: i128 = (1 << 60) - 1;

/// The number `high * 2^96 + low`.
#[derive(Clone, Copy)]
pub(crate) struct Total {
    pub high: i128,
    pub low: i128,
}

/// The number with its low part brought within 0 to 2^96 - 1.
fn carried(high: i128, low: i128) -> Total
    requires high { unsigned_abs high ≤ 2 ^ 100 }
    requires from { pos 0 ≤ℤ (low +ℤ pos (2 ^ 96)) }
    requires to { low <ℤ pos (2 ^ 97) }
    ensures value { total_of result ≡ number_of high low }
    ensures from { pos 0 ≤ℤ result.low }
    ensures to { result.low <ℤ pos (2 ^ 96) }
    ensures near { unsigned_abs result.high ≤ unsigned_abs high + 1 }
{
    if low < 0 {
        Total {
            high: high - 1,
            low: low + LIMB,
        }
    } else if LIMB <= low {
        Total {
            high: high + 1,
            low: low - LIMB,
        }
    } else {
        Total { high, low }
    }
}

impl Total {
    /// The total and one more factor, with its sign, after so many.
    fn with(self, negative: bool, factor: u128) -> Total
        requires high { unsigned_abs self.high ≤ 2 ^ 99 }
        requires from { pos 0 ≤ℤ self.low }
        requires to { self.low <ℤ pos (2 ^ 96) }
        ensures value { total_of result ≡ total_of self +ℤ signed negative factor }
        ensures from { pos 0 ≤ℤ result.low }
        ensures to { result.low <ℤ pos (2 ^ 96) }
        ensures near { unsigned_abs result.high ≤ unsigned_abs self.high + 2 ^ 32 }
    {
        let high = (factor / FACTOR_LIMB) as i128;
        let low = (factor % FACTOR_LIMB) as i128;
        if negative {
            carried(self.high - high, self.low - low)
        } else {
            carried(self.high + high, self.low + low)
        }
    }
}

/// The number in two parts, if it is an entry of a row.
fn within(high: i128, low: i128) -> Option<i128>
    requires { unsigned_abs low < 2 ^ 97 }
    ensures { result ≡ (if is_out (number_of high low) then None else Some (number_of high low)) }
{
    if high < -2 || 2 < high {
        return None;
    }
    let number = high * LIMB + low;
    if -MOST_ENTRY <= number && number <= MOST_ENTRY {
        Some(number)
    } else {
        None
    }
}

/// The same, for any name of the number.
pub(crate) fn entry(high: i128, low: i128) -> Option<i128>
    requires { unsigned_abs low < 2 ^ 97 }
    ensures { Decides high low result }
{
    within(high, low)
}

/// The sum of the terms of a column.
pub(crate) fn sum(side: &[Term], column: Column<'_>) -> Total
    ensures value { total_of result ≡ sum_of (column_of column.entry) side.now }
    ensures parts { IsTotal (length side.now) result }
    ensures near { unsigned_abs result.high ≤ 2 ^ 97 }
{
    let mut total = Total { high: 0, low: 0 };
    'terms: for term in side {
        if column.holds(term) {
            total = total.with(term.negative, term.factor);
        }
    }
    total
}
