//! Formulas: rows that are at least 0, joined by all and any.

use az_lin::Row;
use sqlite_items::Items;

#[derive(Debug, Drop)]
pub enum Formula {
    /// True where the row is at least 0.
    Atom(Row),
    /// True where each member is.
    All(Items<Formula>),
    /// True where some member is.
    Any(Items<Formula>),
}
