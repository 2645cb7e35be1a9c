//! Programs in normal form: cases at the top of equations alone, and reductions that stand alone.
//!
//! `specs/Normal.antt` says what the changed program is, `specs/Laws.antt` that meaning and the rules on programs are
//! kept.
#![tactic(auto)]

mod laws;

pub use laws::{normal_form_keeps_meaning, normal_form_keeps_rules};
