//! Copies of rows, appended to a vector.

ghost use Rattle.std.specs.Prelude.{◌≡◌, ◌++◌, OnOk, IfErr};
ghost use Rattle.az_lin.specs.declared.fault.LinFault.TheVariants.{Memory};

use az_lin::{LinFault, Row, TryCopy};
use std::alloc::Global;

pub(crate) fn push_copies(alloc: Global, rows: &mut Vec<Row>, from: &[Row]) -> Result<(), LinFault>
    ensures ok { OnOk result (rows.new.items ≡ rows.old.items ++ from.now) }
    ensures cause { IfErr result (λ fault. fault ≡ Memory) }
{
    'copies: for row in from {
        rows.push(row.copy(alloc)?)?;
    }
    Ok(())
}
