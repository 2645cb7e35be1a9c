//! Instances.

use az_lin::List;

/// An output or local at a point of its domain, which has the variable's indices.
#[derive(Debug, Drop)]
pub struct Instance {
    pub variable: u32,
    pub point: List<i128>,
}
