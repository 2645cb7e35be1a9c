//! Copies that may run out of memory.

ghost use Rattle.std.specs.Prelude.{◌≡◌, IfOk, IfErr};
ghost use Rattle.az_lin.specs.declared.fault.LinFault.TheVariants.{Memory};

use crate::LinFault;
use std::alloc::Global;

/// A value that can be copied into memory of its own.
pub trait TryCopy: Sized {
    fn copy(&self, alloc: Global) -> Result<Self, LinFault>
        ensures ok { IfOk result (λ copied. copied ≡ self.now) }
        ensures cause { IfErr result (λ fault. fault ≡ Memory) };
}

impl TryCopy for i128 {
    fn copy(&self, alloc: Global) -> Result<Self, LinFault> {
        let _ = alloc;
        Ok(*self)
    }
}
