//! Formulas by name.

use formula_refute::Formula;
use target_map::Which;

/// A formula over so many columns: the parameters, the indices of the reader or of the output, the
/// extra indices of the reductions around a read, and the indices of a writer.
#[derive(Debug, Drop)]
pub struct Stated {
    pub which: Which,
    pub width: usize,
    pub formula: Formula,
}
