//! The rows of the dimensions of one kind.

ghost use Rattle.std.specs.Prelude.{◌≡◌, ◌∷◌, ◌++◌, [], OnOk, IfOk};
ghost use Rattle.order_sets.specs.Rows.{is_in_part};
ghost use Rattle.target_map.specs.Stamps.{part};

use az_lin::{LinFault, Row, TryCopy};
use std::alloc::{AllocError, Global};
use target_map::Kind;

/// The dimensions of one kind, whatever their tiles or blocks.
#[derive(Debug, Clone, Copy)]
pub(crate) enum Part {
    Outer,
    Band,
    Processor,
    Inner,
}

impl Part {
    fn has(self, kind: Kind) -> bool
        ensures { result ≡ is_in_part self kind }
    {
        match self {
            Part::Outer => matches!(kind, Kind::Outer),
            Part::Band => matches!(kind, Kind::Band(_)),
            Part::Processor => matches!(kind, Kind::Processor(_)),
            Part::Inner => matches!(kind, Kind::Inner),
        }
    }
}

/// A copy, where want of memory is the only fault.
fn copied(alloc: Global, row: &Row) -> Result<Row, AllocError>
    ensures { IfOk result (λ copied. copied ≡ row.now) }
{
    match row.copy(alloc) {
        Ok(copied) => Ok(copied),
        Err(LinFault::Memory) => Err(AllocError),
        Err(_) => unreachable!(),
    }
}

/// Appends the row, if its dimension is of the part.
fn push_if(
    picked: &mut Vec<Row>,
    alloc: Global,
    which: Part,
    kind: Kind,
    row: &Row,
) -> Result<(), AllocError>
    ensures { OnOk result (picked.new.items ≡ picked.old.items ++ part (is_in_part which) (kind ∷ []) (row.now ∷ [])) }
{
    if !which.has(kind) {
        return Ok(());
    }
    picked.push(copied(alloc, row)?)?;
    Ok(())
}

/// Appends those of the rows, one for each kind, that are of the part.
pub(crate) fn push_part(
    picked: &mut Vec<Row>,
    alloc: Global,
    which: Part,
    kinds: &[Kind],
    rows: &[Row],
) -> Result<(), AllocError>
    ensures { OnOk result (picked.new.items ≡ picked.old.items ++ part (is_in_part which) kinds.now rows.now) }
{
    'kinds: for place in 0..kinds.len().min(rows.len()) {
        push_if(picked, alloc, which, kinds[place], &rows[place])?;
    }
    Ok(())
}
