//! Why a program isn't shown.

use std::alloc::AllocError;

#[derive(Debug, Drop)]
pub enum ShowFault {
    /// Memory ran out.
    Memory,
}

impl From<AllocError> for ShowFault {
    fn from(_: AllocError) -> Self {
        ShowFault::Memory
    }
}
