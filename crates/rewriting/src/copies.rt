//! Copies appended to a vector.

ghost use Rattle.std.specs.Prelude.{◌≡◌, ◌++◌, OnOk, IfErr};
ghost use Rattle.az_lin.specs.declared.fault.LinFault.TheVariants.{Memory};

use az_lin::{LinFault, TryCopy};
use std::alloc::Global;

pub fn push_copies<T: TryCopy + Drop>(
    alloc: Global,
    to: &mut Vec<T>,
    from: &[T],
) -> Result<(), LinFault>
    ensures ok { OnOk result (to.new.items ≡ to.old.items ++ from.now) }
    ensures cause { IfErr result (λ fault. fault ≡ Memory) }
{
    'copies: for item in from {
        to.push(item.copy(alloc)?)?;
    }
    Ok(())
}
