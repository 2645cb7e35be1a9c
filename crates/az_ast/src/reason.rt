//! Why a command that is well written is refused.

use az_lin::{Name, NoInverse, RatPoint};

/// A name, where a reason has one, is that of the variable, parameter or index it speaks of.
#[derive(Debug, Drop)]
pub enum Reason {
    /// No program was read before the command.
    NoProgram,
    /// The first variable with several disjuncts in its domain or equation, where there may be none.
    Disjoined(Name),
    Unknown(Name),
    Twice(Name),
    /// A change of basis names a variable that is no local, or a mapping command an input.
    Interface(Name),
    /// The kinds of dimensions are missing or out of order.
    Kinds,
    /// A tile or block size, a number of workers or a turn is out of range.
    Size,
    /// A map or vector has another number of indices or rows than its place asks for.
    Width,
    /// The factors of a memory map don't fit.
    Factor,
    NoInverse(NoInverse),
    SelfInline,
    NotLocal(Name),
    NotUsed,
    StillUsed(Name),
    NotReduction,
    /// The first read of the variable, by its number, that is no shift by whole numbers.
    NotUniform(Name, u32),
    /// The vector is zero on the variable's indices.
    ZeroShift,
    /// The first access or index expression of the body that changes along the vector.
    NoReuse(u32),
    /// The operator has no inverse, and this piece of the removed points may have this point.
    NoSubtract { piece: u32, point: RatPoint },
    NoFactor,
    Split,
    NoSpread,
    Unmapped(Name),
    NotCertified,
    Params,
    NoTable(Name),
    OffDomain,
    /// An exact entry of a result lies outside ±(2^60 - 1).
    Entry,
}
