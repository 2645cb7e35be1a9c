//! What the formulas of lifetimes are made for.

use az_ast::Program;
use target_map::Mapping;

/// A program, a mapping that is complete for it, and the sizes of its tiles.
#[derive(Debug, Clone, Copy)]
pub(crate) struct Target<'a> {
    pub(crate) program: &'a Program,
    pub(crate) mapping: &'a Mapping,
    pub(crate) sizes: &'a [u32],
}
