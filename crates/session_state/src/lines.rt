//! The line of each refusal.

ghost use Rattle.std.specs.Prelude.{◌≡◌, IfOk, string_bytes};
ghost use Rattle.session_state.specs.Codes.{code};
ghost use Rattle.session_state.specs.Lines.{spot_text, row_text, certificate_text, refusal_text, line};

use crate::chains::chain_text;
use crate::coordinates::{point_text, rational_point};
use crate::formula_name::formula_text;
use crate::reasons::reason_text;
use crate::variants::{check_word, limit_word, shape_word, text_word};
use crate::{CertificateSpot, Refusal, Spot};
use std::alloc::{AllocError, Global};
use table_data::RowKind;

const USAGE: &str =
    "usage: eval PROGRAM [NAME=N or NAME@FILE]... ; run SCRIPT [--workers K] ; check SCRIPT CERTIFICATE ; make N [--workers K]";

impl Refusal {
    /// The code with which its line begins, and which is the exit status of a run that it ends.
    pub fn code(&self) -> u8
        ensures { result ≡ code self.now }
    {
        match self {
            Refusal::Usage => 2,
            Refusal::Text(_, _, _) => 5,
            Refusal::Shape(_, _) => 6,
            Refusal::ProgramNo(_, _, _, _) => 7,
            Refusal::Command(_) => 8,
            Refusal::MappingNo { .. } => 9,
            Refusal::Overflow(_) => 10,
            Refusal::Limited(_) => 11,
            Refusal::BadTable(_, _, _) => 12,
            Refusal::Certificate(_) => 14,
            Refusal::Cycle { .. } => 15,
        }
    }
}

fn spot_text(alloc: Global, spot: &Spot) -> Result<String, AllocError>
    ensures { IfOk result (λ text. string_bytes text ≡ spot_text spot.now) }
{
    match spot {
        Spot::Check {
            kind,
            variable,
            case_no,
        } => {
            let word = check_word(*kind);
            let variable = variable.as_str();
            format!(in alloc; "check {word} {variable} case {case_no}")
        }
        Spot::Mapping { formula, case_no } => {
            let formula = formula_text(alloc, formula)?;
            format!(in alloc; "mapping {formula} case {case_no}")
        }
        Spot::Invert => String::from_str(alloc, "invert"),
        Spot::Scan => String::from_str(alloc, "scan"),
        Spot::Piece(number) => format!(in alloc; "piece {number}"),
        Spot::Schedule => String::from_str(alloc, "schedule"),
        Spot::Project => String::from_str(alloc, "project"),
    }
}

/// What is wrong with a row.
fn row_text(alloc: Global, kind: &RowKind) -> Result<String, AllocError>
    ensures { IfOk result (λ text. string_bytes text ≡ row_text kind.now) }
{
    match kind {
        RowKind::Fields => String::from_str(alloc, "Fields"),
        RowKind::Number => String::from_str(alloc, "Number"),
        RowKind::Outside => String::from_str(alloc, "Outside"),
        RowKind::Twice => String::from_str(alloc, "Twice"),
        RowKind::Missing(point) => {
            let point = point_text(alloc, 1, point.as_slice())?;
            format!(in alloc; "Missing {point}")
        }
    }
}

/// What is wrong with a certificate.
fn certificate_text(alloc: Global, spot: &CertificateSpot) -> Result<String, AllocError>
    ensures { IfOk result (λ text. string_bytes text ≡ certificate_text spot.now) }
{
    match spot {
        CertificateSpot::Line(number) => format!(in alloc; "line {number}"),
        CertificateSpot::Step {
            formula,
            case_no,
            step,
        } => {
            let formula = formula_text(alloc, formula)?;
            format!(in alloc; "{formula} case {case_no} step {step}")
        }
        CertificateSpot::Missing { formula, case_no } => {
            let formula = formula_text(alloc, formula)?;
            format!(in alloc; "{formula} case {case_no} missing")
        }
        CertificateSpot::Extra => String::from_str(alloc, "extra"),
    }
}

fn refusal_text(alloc: Global, refusal: &Refusal) -> Result<String, AllocError>
    ensures { IfOk result (λ text. string_bytes text ≡ refusal_text refusal.now) }
{
    match refusal {
        Refusal::Usage => String::from_str(alloc, USAGE),
        Refusal::Text(file, kind, place) => {
            let word = text_word(*kind);
            let file = file.as_str();
            format!(in alloc; "{word} {file} at {place}")
        }
        Refusal::Shape(kind, item) => {
            let word = shape_word(*kind);
            format!(in alloc; "Shape {word} item {item}")
        }
        Refusal::ProgramNo(kind, variable, case_no, point) => {
            let word = check_word(*kind);
            let variable = variable.as_str();
            let point = rational_point(alloc, point)?;
            format!(in alloc; "ProgramNo {word} {variable} case {case_no} at {point}")
        }
        Refusal::Command(reason) => reason_text(alloc, reason),
        Refusal::MappingNo {
            formula,
            case_no,
            point,
        } => {
            let formula = formula_text(alloc, formula)?;
            let point = rational_point(alloc, point)?;
            format!(in alloc; "MappingNo {formula} case {case_no} at {point}")
        }
        Refusal::Overflow(spot) => {
            let spot = spot_text(alloc, spot)?;
            format!(in alloc; "Overflow {spot}")
        }
        Refusal::Limited(limit) => {
            let word = limit_word(*limit);
            format!(in alloc; "Limit {word}")
        }
        Refusal::BadTable(input, row, kind) => {
            let input = input.as_str();
            let kind = row_text(alloc, kind)?;
            format!(in alloc; "Data {input} row {row} {kind}")
        }
        Refusal::Certificate(spot) => {
            let spot = certificate_text(alloc, spot)?;
            format!(in alloc; "Certificate {spot}")
        }
        Refusal::Cycle { chain, names } => {
            let chain = chain_text(alloc, names.as_slice(), chain.as_slice())?;
            format!(in alloc; "Cycle{chain}")
        }
    }
}

/// The line of a refusal, behind what says where it comes from: `alphaz: `, or a command's number and name.
pub fn line(alloc: Global, front: &str, refusal: &Refusal) -> Result<String, AllocError>
    ensures { IfOk result (λ text. string_bytes text ≡ line front.now refusal.now) }
{
    let code = refusal.code();
    let text = refusal_text(alloc, refusal)?;
    format!(in alloc; "{front}{code} {text}\n")
}
