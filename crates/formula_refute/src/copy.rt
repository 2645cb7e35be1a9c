//! Rows in memory of their own.

ghost use Rattle.std.specs.Prelude.{◌≡◌, IfOk, IfErr};
ghost use Rattle.formula_refute.specs.declared.fault.RefuteFault.TheVariants.{Memory};

use crate::RefuteFault;
use az_lin::{LinFault, Row, TryCopy};
use std::alloc::Global;

/// A copy, where want of memory is the only fault.
pub(crate) fn copied(alloc: Global, row: &Row) -> Result<Row, RefuteFault>
    ensures ok { IfOk result (λ copied. copied ≡ row.now) }
    ensures cause { IfErr result (λ fault. fault ≡ Memory) }
{
    match row.copy(alloc) {
        Ok(copied) => Ok(copied),
        Err(LinFault::Memory) => Err(RefuteFault::Memory),
        Err(_) => unreachable!(),
    }
}
