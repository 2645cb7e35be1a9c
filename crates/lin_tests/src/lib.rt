//! Tests of exact rows, maps and polyhedra, with the answers worked out by hand. They stand beside
//! those crates, so that none of them is proved twice.
#![tactic(auto)]

#[cfg(test)]
mod columns;
#[cfg(test)]
mod copies;
#[cfg(test)]
mod points;
#[cfg(test)]
mod polyhedra;

/// A row: its coefficients, and its constant.
pub type Line<'a> = (&'a [i128], i128);
