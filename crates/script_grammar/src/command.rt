//! The commands of a script as they are written, with names and numbers and nothing looked up.

use az_lin::{List, Name};

/// A term of an affine expression: its signed number, and the name that it multiplies. A name without a
/// number has the factor 1 or -1, and a number without a name has no `name`.
#[derive(Drop)]
pub struct TermText {
    pub factor: i128,
    pub name: Option<Name>,
}

/// `(t,i -> t,2*i+N)`: the names of the indices, and a sum of terms for each row.
#[derive(Drop)]
pub struct MapText {
    pub indices: List<Name>,
    pub rows: List<List<TermText>>,
}

/// The kind of a dimension: sequential outside, tiled, on processors, or sequential inside. Tiles and blocks
/// have their size, which may be any number here.
#[derive(Drop)]
pub enum KindText {
    Outer,
    Band(i128),
    Processor(i128),
    Inner,
}

/// A command with its arguments, in the order in which they are written.
#[derive(Drop)]
pub enum Command {
    ReadAlphabets {
        file: Name,
    },
    CheckProgram,
    Show,
    FindSchedule {
        variables: List<Name>,
    },
    CoB {
        variable: Name,
        map: MapText,
    },
    Normalize,
    Inline {
        into: Name,
        target: Name,
    },
    RemoveUnused {
        variable: Name,
    },
    SimplifyReduction {
        variable: Name,
        vector: List<i128>,
    },
    FactorReduction {
        variable: Name,
    },
    SplitReduction {
        variable: Name,
        outer: i128,
    },
    SetDimensionKinds {
        kinds: List<KindText>,
    },
    SetSpaceTimeMap {
        variable: Name,
        map: MapText,
    },
    SetMemoryMap {
        variable: Name,
        space: Name,
        map: MapText,
        factors: List<i128>,
    },
    SetStatementOrder {
        variables: List<Name>,
    },
    VerifyTargetMapping,
    WriteCertificate {
        file: Name,
    },
    SetParameter {
        parameter: Name,
        number: i128,
    },
    ReadInput {
        input: Name,
        file: Name,
    },
    Run,
    Interleave {
        workers: i128,
        turns: List<i128>,
    },
    ShowLoops,
    RunLoops,
    SpreadReduce {
        variable: Name,
        point: List<i128>,
    },
}
