//! Everything that the program `alphaz` does: it evaluates systems of affine equations over polyhedral domains, and
//! carries out scripts.
//!
//! `specs/Runs.antt` says how a run ends (`EndsAs`), and what it says.
#![tactic(auto)]

mod bound;
mod eval;
mod gate;
mod listing;
mod run;
mod script;
mod status;
mod task;

pub use gate::OpenGate;
pub use run::alphaz;
pub use status::{Outcome, Status};
