//! The outside as a program sees it: files that are read and written whole, and bytes that are said.
//!
//! `specs/Desk.antt` says what each call answers and leaves. A fault comes only where the desk counted it
//! and tells that very call as the last that failed, so code that is generic over a desk can neither make
//! one up nor answer it for another call.
#![tactic(auto)]

mod call;
mod desk;
mod fault;
mod honest;
mod host;
mod memory;

pub use call::Call;
pub use desk::{Desk, MOST_BYTES};
pub use fault::DeskFault;
pub use honest::HonestDesk;
pub use host::HostDesk;
pub use memory::{Failure, MemoryDesk};

#[cfg(test)]
mod tests;
