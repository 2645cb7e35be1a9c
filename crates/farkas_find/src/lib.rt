//! The elimination of columns from a system of rows, exact and over whole numbers of at most 128 bits.
//!
//! `specs/Stages.antt` says what the stages of the elimination are.
#![tactic(auto)]

mod advance;
mod back_substitute;
mod bound;
mod calls;
mod choice;
mod choose;
mod combine;
mod contradiction;
mod counting;
mod duplicates;
mod fault;
mod first_rows;
mod found;
mod left;
mod made;
mod negative;
mod next;
mod numbered;
mod pairs;
mod parting;
mod prune;
mod range;
mod rounding;
mod run;
mod single;
mod stage;
mod stored;
mod trail;
mod value;
mod verdict;
mod wide;
mod winners;
mod within;

pub use calls::{drop_column, range_rows, tidy};
pub use fault::FindFault;
pub use left::Left;
pub use verdict::{Decision, decide};
pub use wide::WideRow;
