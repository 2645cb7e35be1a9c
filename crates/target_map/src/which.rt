//! The formulas of a mapping by name.

/// What a formula speaks of. Variables go by their numbers, and the reads of an equation are
/// numbered from 0 in pre-order, accesses to inputs left out.
#[derive(Debug, Clone, Copy, PartialEq, Eq)]
pub enum Which {
    /// A read comes before what it reads.
    Order { reader: u32, read: u32 },
    /// What is read was stored over.
    Life { reader: u32, read: u32, writer: u32 },
    /// An output's value was stored over.
    Keep { output: u32, writer: u32 },
}
