//! Target mappings: when the instances of a program are carried out and where their values are kept.
//!
//! `specs/Promise.antt` says what a mapping has to keep for all parameters (`IsCertifiedMap`), over
//! `specs/Before.antt`, `Dependence.antt` and `Lifetime.antt`.
#![tactic(auto)]

mod by_variable;
mod certified;
mod checks;
mod fault;
mod kind;
mod laws;
mod mapping;
mod reading;
mod refusals;
mod storage;
mod which;

pub use certified::CertifiedMap;
pub use fault::MapFault;
pub use kind::Kind;
pub use laws::{certified_gives_order, pairs_are_told};
pub use mapping::Mapping;
pub use storage::Storage;
pub use which::Which;
