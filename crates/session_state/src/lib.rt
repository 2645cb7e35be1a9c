//! What all commands share: why they are refused, how they end, and what is then said.
//!
//! `specs/Steps.antt` says how a command goes through its tests, `specs/Endings.antt` what stands at the
//! desk when it ended. `specs/Codes.antt` and `specs/Lines.antt` are the tables of codes and lines.
#![tactic(auto)]

mod chains;
mod coordinates;
mod formula_name;
mod lines;
mod reasons;
mod refusal;
mod saying;
mod session;
mod settings;
mod stop;
mod stopping;
mod texts;
mod variants;
mod verified;

pub use formula_name::FormulaName;
pub use lines::line;
pub use refusal::{CertificateSpot, Refusal, Spot, TextKind};
pub use saying::say;
pub use session::{Loaded, Session, change, fresh, no_program, opened, remap};
pub use settings::{set_parameter, unset};
pub use stop::{Stop, name, status};
pub use stopping::say_stop;
pub use texts::{text_of, text_stop, write_file};
pub use verified::{Verified, verified_mapping};
