//! The numbers from the least to the greatest of some.

ghost use Rattle.std.specs.Prelude.{◌≡◌};
ghost use Rattle.plan_cells.specs.Numbering.{stretched};

/// From the least to the greatest.
#[derive(Debug, Clone, Copy)]
pub struct Range {
    pub least: i128,
    pub greatest: i128,
}

/// As far as one number more.
pub(crate) fn stretched(range: Option<Range>, number: i128) -> Option<Range>
    ensures { result ≡ stretched range number }
{
    let Some(Range { least, greatest }) = range else {
        return Some(Range {
            least: number,
            greatest: number,
        });
    };
    Some(Range {
        least: least.min(number),
        greatest: greatest.max(number),
    })
}
