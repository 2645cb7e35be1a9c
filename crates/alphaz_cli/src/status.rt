//! The answer of a run.

ghost use Rattle.std.specs.Prelude.{◌≡◌};
ghost use Rattle.alphaz_cli.specs.Outcomes.{outcome, outcome_of_refusal};

use az_ast::{Reason, ShapeKind};
use az_desk::Call;
use az_lin::{Limit, List, Name, RatPoint};
use domain_check::CheckKind;
use session_state::{CertificateSpot, FormulaName, Refusal, Spot, Stop, TextKind};
use table_data::RowKind;
use value_walk::PointName;

/// What a run ended with: done, a fault of the desk, want of memory, or a refusal.
#[derive(Debug, Drop)]
pub enum Outcome {
    /// Everything was carried out and said.
    Done,
    /// The words are not in the word grammar.
    Usage,
    /// The file could not be read.
    ReadFault(Name),
    /// Something could not be written or said.
    WriteFault,
    /// The file, what is wrong with its text, and the place in bytes.
    Text(Name, TextKind, usize),
    /// The rule on a program's shape that fails, and the item at which it does.
    Shape(ShapeKind, u32),
    /// The check, the variable and the number of the first case that isn't refuted, with an open point.
    ProgramNo(CheckKind, Name, u32, RatPoint),
    /// A reason of a command's own.
    Command(Reason),
    /// The formula of the mapping, and the number of its first case that isn't refuted, with an open point.
    MappingNo {
        formula: FormulaName,
        case_no: u32,
        point: RatPoint,
    },
    /// Where an exact number left 128 bits.
    Overflow(Spot),
    /// The count that was exceeded.
    Limited(Limit),
    /// The input, the number of the row in its text, from 1 and 0 for a missing one, and what is wrong.
    BadTable(Name, u64, RowKind),
    /// Memory ran out.
    Memory,
    /// What is wrong with a certificate.
    Certificate(CertificateSpot),
    /// A closed chain: each point's equation reads the next point, and the last one's the first.
    Cycle(List<PointName>),
}

/// The answer of a run, and the exit status.
#[derive(Debug, Drop)]
pub struct Status {
    pub code: u8,
    pub answer: Outcome,
}

fn outcome_of_refusal(refusal: Refusal) -> Outcome
    ensures { result ≡ outcome_of_refusal refusal }
{
    match refusal {
        Refusal::Usage => Outcome::Usage,
        Refusal::Text(file, kind, place) => Outcome::Text(file, kind, place),
        Refusal::Shape(kind, item) => Outcome::Shape(kind, item),
        Refusal::ProgramNo(kind, variable, case_no, point) => {
            Outcome::ProgramNo(kind, variable, case_no, point)
        }
        Refusal::Command(reason) => Outcome::Command(reason),
        Refusal::MappingNo {
            formula,
            case_no,
            point,
        } => Outcome::MappingNo {
            formula,
            case_no,
            point,
        },
        Refusal::Overflow(spot) => Outcome::Overflow(spot),
        Refusal::Limited(limit) => Outcome::Limited(limit),
        Refusal::BadTable(input, row, kind) => Outcome::BadTable(input, row, kind),
        Refusal::Certificate(spot) => Outcome::Certificate(spot),
        Refusal::Cycle { chain, .. } => Outcome::Cycle(chain),
    }
}

/// The answer of a run that ended so.
pub(crate) fn answer_of(ending: Result<(), Stop>) -> Outcome
    ensures { result ≡ outcome ending }
{
    match ending {
        Ok(()) => Outcome::Done,
        Err(Stop::Refused(refusal)) => outcome_of_refusal(refusal),
        Err(Stop::Fault(Call::Read(name))) => Outcome::ReadFault(name),
        Err(Stop::Fault(_)) => Outcome::WriteFault,
        Err(Stop::Memory) => Outcome::Memory,
    }
}
