//! The members of a domain in lexicographic order, by a nest of loops.
//!
//! `specs/Members.antt` says what a scanner promises.
#![tactic(auto)]

mod bound;
mod boxes;
mod derived;
mod fault;
mod head;
mod hull;
mod index_range;
mod level;
mod located;
mod merge;
mod nest;
mod points;
mod range;
mod scanner;
mod walk;
mod walks;

pub use fault::ScanFault;
pub use points::box_points;
pub use scanner::Scanner;
