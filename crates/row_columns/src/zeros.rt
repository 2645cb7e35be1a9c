//! Coefficients that count for nothing, and rows whose entries are known to be in range.

ghost use Rattle.std.specs.Prelude.{◌≡◌, ◌++◌, replicate, pos, OnOk, IfOk, IfErr};
ghost use Rattle.az_lin.specs.Affine.{Affine, HasEntries};
ghost use Rattle.az_lin.specs.declared.fault.LinFault.TheVariants.{Memory};

use az_lin::{LinFault, Row};
use smallvec::SmallVec;
use std::alloc::{AllocError, Global};

pub(crate) fn push_zeros(coefs: &mut SmallVec<i128, 8>, count: usize) -> Result<(), AllocError>
    ensures { OnOk result (coefs.new.items ≡ coefs.old.items ++ replicate count (pos 0)) }
{
    'zeros: for number in 0..count {
        let _ = number;
        coefs.push(0)?;
    }
    Ok(())
}

/// The row with these entries, which are in range.
pub(crate) fn row_of(alloc: Global, coefs: &[i128], konst: i128) -> Result<Row, LinFault>
    requires { HasEntries (record { coefs = coefs.now; konst = konst }) }
    ensures ok { IfOk result (λ row. row ≡ record { coefs = coefs.now; konst = konst }) }
    ensures cause { IfErr result (λ fault. fault ≡ Memory) }
{
    Row::new(alloc, coefs, konst)
}
