//! What may go wrong while parts are put together.

use az_ast::ShapeFault;
use az_lin::LinFault;
use std::alloc::{AllocError, AllocFailed};

#[derive(Debug, Drop)]
pub enum Fault {
    Shape(ShapeFault),
    Row(LinFault),
    Memory,
}

impl From<ShapeFault> for Fault {
    fn from(fault: ShapeFault) -> Self {
        Fault::Shape(fault)
    }
}

impl From<LinFault> for Fault {
    fn from(fault: LinFault) -> Self {
        Fault::Row(fault)
    }
}

impl From<AllocError> for Fault {
    fn from(_: AllocError) -> Self {
        Fault::Memory
    }
}

impl<T: Drop> From<AllocFailed<T>> for Fault {
    fn from(_: AllocFailed<T>) -> Self {
        Fault::Memory
    }
}
