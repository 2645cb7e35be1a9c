//! What is left of a system.

use crate::WideRow;
use az_lin::List;

#[derive(Debug, Drop)]
pub enum Left {
    /// A row refutes the system.
    Contradiction,
    Rows(List<WideRow>),
}
