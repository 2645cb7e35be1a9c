//! Formulas over affine rows, and their refutation at whole points, case by case.
//!
//! `specs/Promise.antt` says what a refutation answers (`Refutes`).
#![tactic(auto)]

mod case;
mod case_list;
mod copy;
mod count;
mod domain;
mod fault;
mod formula;
mod formula_cases;
mod front;
mod gate;
mod gated;
mod lent;
mod negation;
mod refutation;
mod share;
mod systems;
mod verdict;

pub use count::case_count;
pub use domain::domain_formula;
pub use fault::RefuteFault;
pub use formula::Formula;
pub use front::{Front, Stop, decide_front};
pub use gate::CaseGate;
pub use gated::{decide_cases_gated, decide_front_gated};
pub use negation::negate;
pub use refutation::{Answer, refute};
pub use systems::cases;
