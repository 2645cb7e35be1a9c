//! Rows, maps and domains that are made ready for their values at many points: a row keeps the
//! columns that count alone, and is computed in 64 bits where its coefficients are small.
#![tactic(auto)]

mod domain;
mod map;
mod parts;
mod row;

pub use domain::{QuickConj, QuickDomain};
pub use map::QuickMap;
pub use row::QuickRow;
