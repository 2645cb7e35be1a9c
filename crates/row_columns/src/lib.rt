//! Rows, maps and domains over more columns or fewer: columns put in, parameters put in, and maps
//! that keep coordinates.
//!
//! `specs/Columns.antt` of az_lin says what the rows are, and what their values are at a point.
#![tactic(auto)]

mod apart;
mod keep;
mod put;
mod widen;
mod zeros;

pub use apart::apart_by;
pub use keep::{extended, identity, reading, unit_row};
pub use put::{conj_at_params, domain_at_params, map_at_params, row_at_params};
pub use widen::{widened_conj, widened_domain, widened_map, widened_row};
