//! The sides of a box of cells.

ghost use Rattle.std.specs.Prelude.{◌≡◌, IfSome};
ghost use Rattle.plan_cells.specs.Numbering.{side_over, volume};
ghost use Rattle.plan_cells.specs.Inner.Passing.{IsNarrow, capped};

use crate::range::Range;

/// The numbers from `low` on, so many.
#[derive(Debug, Clone, Copy)]
pub struct Side {
    pub low: i128,
    pub size: u64,
}

/// Over the numbers from the least to the greatest, or over the remainders of the factor, if it isn't 0.
pub(crate) fn side_over(range: Option<Range>, factor: u32) -> Side
    requires { IfSome range IsNarrow }
    ensures { result ≡ side_over range factor }
{
    if factor != 0 {
        return Side {
            low: 0,
            size: u64::from(factor),
        };
    }
    let Some(Range { least, greatest }) = range else {
        return Side { low: 0, size: 0 };
    };
    Side {
        low: least,
        size: (greatest - least) as u64 + 1,
    }
}

/// The most cells of a box that are counted: one more than there may be.
const CAP: u64 = 1 << 20;

/// How many cells a box has, as far as they are counted.
pub(crate) fn volume(sides: &[Side]) -> u64
    ensures { result ≡ capped (volume sides.now) }
{
    let Some((side, rest)) = sides.split_first() else {
        return 1;
    };
    side.size.saturating_mul(volume(rest)).min(CAP)
}
