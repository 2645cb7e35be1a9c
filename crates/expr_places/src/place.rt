//! A place of an equation: a case, a reduction or an access.

use crate::Scope;
use az_ast::Branch;
use az_lin::{Domain, Map};

/// What stands at a place, lent from the equation.
#[derive(Debug, Clone, Copy)]
pub enum Part<'a> {
    Case(&'a [Branch]),
    /// The number of its own indices, and its domain.
    Reduction(u32, &'a Domain),
    /// The number of the variable, and the map to the indices read.
    Access(u32, &'a Map),
}

#[derive(Debug, Drop)]
pub struct Place<'a> {
    pub part: Part<'a>,
    pub scope: Scope<'a>,
}
