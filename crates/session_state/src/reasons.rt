//! Reasons in text.

ghost use Rattle.std.specs.Prelude.{◌≡◌, IfOk, string_bytes};
ghost use Rattle.session_state.specs.Reasons.{side, evidence_text, named, reason_text};

use crate::coordinates::{point_text, rational_point, rows_text};
use az_ast::Reason;
use az_lin::{Name, NoInverse};
use std::alloc::{AllocError, Global};

/// The length of the rows of a square of so many numbers. A map has at most 8 indices, so rows are no
/// longer.
fn side(count: usize) -> usize
    ensures { result ≡ side count }
{
    if count <= 1 {
        1
    } else if count <= 4 {
        2
    } else if count <= 9 {
        3
    } else if count <= 16 {
        4
    } else if count <= 25 {
        5
    } else if count <= 36 {
        6
    } else if count <= 49 {
        7
    } else {
        8
    }
}

fn evidence_text(alloc: Global, evidence: &NoInverse) -> Result<String, AllocError>
    ensures { IfOk result (λ text. string_bytes text ≡ evidence_text evidence.now) }
{
    match evidence {
        NoInverse::Kernel(vector) => {
            let vector = point_text(alloc, 1, vector.as_slice())?;
            format!(in alloc; "kernel {vector}")
        }
        NoInverse::Rational { nums, den } => {
            let row = side(nums.len());
            let rows = rows_text(alloc, row, den.unsigned_abs(), nums.as_slice())?;
            format!(in alloc; "rational {rows}")
        }
    }
}

fn named(alloc: Global, word: &str, name: &Name) -> Result<String, AllocError>
    ensures { IfOk result (λ text. string_bytes text ≡ named word.now name.now) }
{
    let name = name.as_str();
    format!(in alloc; "{word} {name}")
}

pub(crate) fn reason_text(alloc: Global, reason: &Reason) -> Result<String, AllocError>
    ensures { IfOk result (λ text. string_bytes text ≡ reason_text reason.now) }
{
    match reason {
        Reason::NoProgram => String::from_str(alloc, "NoProgram"),
        Reason::Disjoined(name) => named(alloc, "Disjoined", name),
        Reason::Unknown(name) => named(alloc, "Unknown", name),
        Reason::Twice(name) => named(alloc, "Twice", name),
        Reason::Interface(name) => named(alloc, "Interface", name),
        Reason::Kinds => String::from_str(alloc, "Kinds"),
        Reason::Size => String::from_str(alloc, "Size"),
        Reason::Width => String::from_str(alloc, "Width"),
        Reason::Factor => String::from_str(alloc, "Factor"),
        Reason::NoInverse(evidence) => {
            let evidence = evidence_text(alloc, evidence)?;
            format!(in alloc; "NoInverse {evidence}")
        }
        Reason::SelfInline => String::from_str(alloc, "SelfInline"),
        Reason::NotLocal(name) => named(alloc, "NotLocal", name),
        Reason::NotUsed => String::from_str(alloc, "NotUsed"),
        Reason::StillUsed(name) => named(alloc, "StillUsed", name),
        Reason::NotReduction => String::from_str(alloc, "NotReduction"),
        Reason::NotUniform(name, read) => {
            let name = name.as_str();
            format!(in alloc; "NotUniform {name} {read}")
        }
        Reason::ZeroShift => String::from_str(alloc, "ZeroShift"),
        Reason::NoReuse(read) => format!(in alloc; "NoReuse {read}"),
        Reason::NoSubtract { piece, point } => {
            let point = rational_point(alloc, point)?;
            format!(in alloc; "NoSubtract {piece} at {point}")
        }
        Reason::NoFactor => String::from_str(alloc, "NoFactor"),
        Reason::Split => String::from_str(alloc, "Split"),
        Reason::NoSpread => String::from_str(alloc, "NoSpread"),
        Reason::Unmapped(name) => named(alloc, "Unmapped", name),
        Reason::NotCertified => String::from_str(alloc, "NotCertified"),
        Reason::Params => String::from_str(alloc, "Params"),
        Reason::NoTable(name) => named(alloc, "NoTable", name),
        Reason::OffDomain => String::from_str(alloc, "OffDomain"),
        Reason::Entry => String::from_str(alloc, "Entry"),
    }
}
