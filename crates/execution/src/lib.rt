//! Plans, the states that carrying them out goes through, and the laws by which every order of events keeps
//! every value.
//!
//! `specs/Good.antt` says what holds in each state, `specs/Laws.antt` that each event keeps it.
#![tactic(auto)]

mod event;
mod instance;
mod laws;
mod place;
mod step;

pub use event::Event;
pub use instance::Instance;
pub use laws::{
    claim_keeps_good, enabled_events_fall, ended_has_outputs, event_keeps_good, every_run_is_good,
    example_runs, load_finds_the_meaning, load_keeps_good, next_keeps_good, some_turn_is_enabled,
    start_is_good, store_keeps_good,
};
pub use place::Place;
pub use step::Step;
