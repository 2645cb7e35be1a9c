//! The formulas of the dependences of a program under a target mapping, and what formulas over
//! instances are made of.
//!
//! `specs/Laws.antt` says what the formulas mean (`OrderIsMeant`), `specs/Stated.antt` what the call
//! answers that makes them (`States`).
#![tactic(auto)]

mod before;
mod context;
mod laws;
mod members;
mod orders;
mod pair;
mod part;
mod sizes;
mod stated;
mod time_rows;
mod visit;

pub use before::not_before;
pub use context::{context_over, push_context, push_domain, push_domains};
pub use laws::order_is_meant;
pub use members::{Members, difference};
pub use orders::dependence_formulas;
pub use pair::{Pair, push_each_pair, push_pair};
pub use sizes::tile_sizes;
pub use stated::Stated;
pub use time_rows::{TimeRows, composed};
pub use visit::Visit;
