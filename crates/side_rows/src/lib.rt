//! Affine sides with names as rows over the columns of a scope.
//!
//! `specs/Sides.antt` has the row of a side: the entry of a column is the sum of the factors of the terms with
//! its name.
#![tactic(auto)]

mod column;
mod difference;
mod maps;
mod scope;
mod total;
mod unknown;

pub use difference::Difference;
pub use maps::{map_of, rows_of_sides};
pub use scope::{Scope, is_in, joined};
pub use unknown::{is_unknown_in, some_unknown};
