//! The counts that a program, a script or a run may not exceed.

/// The limit that a refusal names.
#[derive(Debug, Clone, Copy, PartialEq, Eq)]
pub enum Limit {
    File,
    Commands,
    Size,
    Names,
    Columns,
    Pieces,
    Rows,
    Systems,
    Steps,
    BoxPoints,
    Points,
    Coordinate,
    Instances,
    Loads,
    Cells,
    Turns,
    Disjuncts,
}
