//! The law of the numbers.

ghost use Rattle.plan_cells.specs.Laws.{CellsAreKeptApart};

/// Two instances have one number exactly where they are kept in one cell.
pub fn cells_are_kept_apart()
    ensures { CellsAreKeptApart }
{}
