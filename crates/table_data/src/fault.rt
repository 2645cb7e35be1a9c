//! Why a text is no table of a domain.

ghost use Rattle.std.specs.Prelude.{◌≡◌};
ghost use Rattle.table_data.specs.Faults.{fault_of};
ghost use Rattle.table_data.specs.declared.fault.TableFault.TheVariants.{Memory};

use az_lin::{Limit, List};
use loop_scan::ScanFault;
use std::alloc::{AllocError, AllocFailed};

/// What is wrong with a row.
#[derive(Debug, Drop)]
pub enum RowKind {
    /// Not as many fields as the indices and the value.
    Fields,
    /// A field is no whole number of 64 bits in 1 to 20 digits.
    Number,
    /// The domain doesn't hold the point.
    Outside,
    /// An earlier row has the point.
    Twice,
    /// No row has this point of the domain.
    Missing(List<i128>),
}

#[derive(Debug, Drop)]
pub enum TableFault {
    /// Rows are numbered from 1; a missing row has the number 0.
    BadRow { row: u64, kind: RowKind },
    /// The elimination for the domain's box leaves ±(2^127 - 1).
    Overflow,
    /// A parameter put into a row of the domain leaves ±(2^60 - 1).
    Entry,
    /// The domain's box passes a limit.
    Limit(Limit),
    /// Memory ran out.
    Memory,
}

impl From<AllocError> for TableFault {
    ghost from_gives = { λ _ e. e ≡ Memory };

    fn from(_: AllocError) -> Self {
        TableFault::Memory
    }
}

impl<T: Drop> From<AllocFailed<T>> for TableFault {
    ghost from_gives = { λ _ e. e ≡ Memory };

    fn from(_: AllocFailed<T>) -> Self {
        TableFault::Memory
    }
}

impl From<ScanFault> for TableFault {
    ghost from_gives = { λ fault e. e ≡ fault_of fault };

    fn from(fault: ScanFault) -> Self {
        match fault {
            ScanFault::Overflow => TableFault::Overflow,
            ScanFault::Entry => TableFault::Entry,
            ScanFault::Limit(limit) => TableFault::Limit(limit),
            ScanFault::Memory => TableFault::Memory,
        }
    }
}
