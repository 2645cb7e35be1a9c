//! Why a program or a table is refused.

ghost use Rattle.std.specs.Prelude.{◌≡◌};
ghost use Rattle.az_ast.specs.declared.fault.ShapeFault.TheVariants.{Memory};

use az_lin::Limit;
use std::alloc::{AllocError, AllocFailed};

/// The rules on a program's shape, in the order in which an item is looked at.
#[derive(Debug, Clone, Copy, PartialEq, Eq)]
pub enum ShapeKind {
    Reserved,
    TwiceName,
    UnknownName,
    Literal,
    Entry,
    Arity,
    InputEquation,
    TwoEquations,
    BadReduce,
    NoEquation,
}

/// Item 0 is the header, the declarations and then the equations follow.
#[derive(Debug, Drop)]
pub enum ShapeFault {
    Shape { kind: ShapeKind, item: u32 },
    Limit(Limit),
    /// Memory ran out.
    Memory,
}

impl From<AllocError> for ShapeFault {
    ghost from_gives = { λ _ e. e ≡ Memory };

    fn from(_: AllocError) -> Self {
        ShapeFault::Memory
    }
}

impl<T: Drop> From<AllocFailed<T>> for ShapeFault {
    ghost from_gives = { λ _ e. e ≡ Memory };

    fn from(_: AllocFailed<T>) -> Self {
        ShapeFault::Memory
    }
}
