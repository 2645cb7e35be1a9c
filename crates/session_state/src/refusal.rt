//! Why a run or a command is refused.

use crate::FormulaName;
use az_ast::{Reason, ShapeKind};
use az_lin::{Limit, List, Name, RatPoint};
use domain_check::CheckKind;
use table_data::RowKind;
use value_walk::PointName;

/// What is wrong with a text.
#[derive(Debug, Clone, Copy, PartialEq, Eq)]
pub enum TextKind {
    Syntax,
    BadByte,
    WideNumber,
}

/// Where an exact number left 128 bits.
#[derive(Debug, Drop)]
pub enum Spot {
    /// In deciding this case of the checks of a variable's domain or equation.
    Check {
        kind: CheckKind,
        variable: Name,
        case_no: u32,
    },
    /// In deciding this case of a formula of the mapping.
    Mapping {
        formula: FormulaName,
        case_no: u32,
    },
    /// In inverting a map.
    Invert,
    /// In scanning a domain.
    Scan,
    /// In deciding whether this piece of the removed points is empty.
    Piece(u32),
    /// In looking for a schedule.
    Schedule,
    /// In projecting a reduction's domain.
    Project,
}

/// What is wrong with a certificate.
#[derive(Debug, Drop)]
pub enum CertificateSpot {
    /// The first line outside the grammar, counted from 1.
    Line(u64),
    /// The first step of a derivation that isn't valid, counted from 0, or the number of steps.
    Step {
        formula: FormulaName,
        case_no: u32,
        step: u64,
    },
    /// The case has no derivation.
    Missing {
        formula: FormulaName,
        case_no: u32,
    },
    /// Something is left over.
    Extra,
}

/// A run or command that is refused changes nothing but what is said of it.
#[derive(Debug, Drop)]
pub enum Refusal {
    /// The words are not in the word grammar.
    Usage,
    /// The file, what is wrong with its text, and the place in bytes.
    Text(Name, TextKind, usize),
    /// The rule on a program's shape that fails, and the item at which it does.
    Shape(ShapeKind, u32),
    /// The check, the variable, and the number of the first case that isn't refuted, with a point that is
    /// open for it.
    ProgramNo(CheckKind, Name, u32, RatPoint),
    /// A reason of the command's own.
    Command(Reason),
    /// The formula of the mapping, and the number of its first case that isn't refuted, with a point that
    /// is open for it.
    MappingNo {
        formula: FormulaName,
        case_no: u32,
        point: RatPoint,
    },
    Overflow(Spot),
    /// The count that was exceeded.
    Limited(Limit),
    /// The input, the number of the row in its text, from 1 and 0 for a missing one, and what is wrong.
    BadTable(Name, u64, RowKind),
    Certificate(CertificateSpot),
    /// A closed chain of points, and the names of the program's variables by their numbers.
    Cycle {
        chain: List<PointName>,
        names: List<Name>,
    },
}
