//! Why there are no values.

ghost use Rattle.std.specs.Prelude.{◌≡◌};
ghost use Rattle.value_walk.specs.Refusals.{refusal_of};
ghost use Rattle.value_walk.specs.declared.refusal.EvalRefusal.TheVariants.{Memory};

use az_lin::{Limit, List};
use loop_scan::ScanFault;
use std::alloc::AllocError;

/// A point of the variable with this number, by its indices.
#[derive(Debug, Drop)]
pub struct PointName {
    pub variable: u32,
    pub point: List<i128>,
}

#[derive(Debug, Drop)]
pub enum EvalRefusal {
    /// A closed chain: each point's equation reads the next point, and the last one's the first.
    Cycle(List<PointName>),
    Overflow,
    Entry,
    Limit(Limit),
    Memory,
}

impl From<AllocError> for EvalRefusal {
    ghost from_gives = { λ _ e. e ≡ Memory };

    fn from(_: AllocError) -> EvalRefusal {
        EvalRefusal::Memory
    }
}

impl EvalRefusal {
    /// That of a box.
    pub fn of_scan(fault: ScanFault) -> EvalRefusal
        ensures { result ≡ refusal_of fault }
    {
        match fault {
            ScanFault::Overflow => EvalRefusal::Overflow,
            ScanFault::Entry => EvalRefusal::Entry,
            ScanFault::Limit(limit) => EvalRefusal::Limit(limit),
            ScanFault::Memory => EvalRefusal::Memory,
        }
    }
}
