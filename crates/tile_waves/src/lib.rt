//! The instances of a program in the order in which they are carried out: waves of tiles of instances.
//!
//! `specs/Waves.antt` says what stands where, `specs/Keys.antt` in which order.
#![tactic(auto)]

mod column;
mod cut;
mod item;
mod key;
mod laws;
mod level;
mod listing;
mod ordering;
mod wave_list;

pub use laws::before_is_earlier;
pub use ordering::waves;
pub use wave_list::Waves;
