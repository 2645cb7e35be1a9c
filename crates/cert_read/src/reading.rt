//! Certificates read from their text.

ghost use Rattle.std.specs.Prelude.{◌≡◌, ◌↔◌, ◌≤◌, ℕ, [], IsTrue, MatchOption, drop, length};
ghost use Rattle.az_ast.specs.Writable.{IsWritable};
ghost use Rattle.cert_text.specs.Answers.{Reads, ReadsOnly};
ghost use Rattle.cert_read.specs.Inner.Found.{IsSomeVersion, IsVersionLine};
ghost use Rattle.cert_read.specs.Inner.Groups.{Begins, IsTaken};
ghost use Rattle.cert_text.specs.Lines.{version_line};
ghost use Rattle.cert_text.specs.Versions.{IsVersion};

use crate::groups::read_proofs;
use az_ast::Program;
use cert_text::{CertFault, Certificate};
use grammar_rules::{Line, behind, cut_lines};
use line_fields::{fields_are_one, last_natural};
use std::alloc::Global;

fn is_version(number: u32) -> bool
    ensures { IsTrue result ↔ IsVersion number }
{
    number == 1 || number == 2
}

/// The version that the line has.
fn read_version(line: &[u8]) -> Option<u32>
    ensures { MatchOption result ((version : ℕ) → IsVersionLine version line.now → ⊥) (λ version. IsVersionLine version line.now) }
{
    let Some(digits) = behind(line, b"alphaz-certificate ") else {
        return None;
    };
    let Some(version) = last_natural(digits) else {
        return None;
    };
    if !is_version(version) {
        return None;
    }
    Some(version)
}

/// The version that the line at the place has.
fn version_at(lines: &[Line<'_>], place: usize) -> Option<u32>
    ensures { MatchOption result (Begins IsSomeVersion (drop place lines.now) → ⊥) (λ version. IsVersion version × IsTaken lines.now place (version_line version)) }
{
    let Some(line) = lines.get(place) else {
        return None;
    };
    read_version(line.bytes())
}

/// Whether all lines are read, and nothing stands behind them.
fn is_at_end(lines: &[Line<'_>], end: usize, rest: &Line<'_>) -> bool
    ensures { IsTrue result ↔ ((length lines.now ≤ end) × (rest.now ≡ [])) }
{
    lines.len() <= end && rest.bytes().is_empty()
}

/// The certificate that the text is. `BadLine` has the first line outside the grammar, counted from
/// 1; an empty text is outside it at line 1, and so is a last line that isn't ended at its own.
pub fn read_certificate(
    alloc: Global,
    text: &[u8],
    program: &Program,
) -> Result<Certificate, CertFault>
    requires { IsWritable program.now }
    ensures answer { Reads program.now text.now result }
    ensures only { ReadsOnly program.now text.now result }
{
    fields_are_one();
    let _ = program.variables();
    let cut = cut_lines(alloc, text)?;
    let lines = cut.lines.as_slice();
    let Some(version) = version_at(lines, 0) else {
        return Err(CertFault::BadLine(1));
    };
    let found = read_proofs(alloc, program, lines, 1)?;
    if !is_at_end(lines, found.end, &cut.rest) {
        return Err(CertFault::BadLine(found.end as u64 + 1));
    }
    Ok(Certificate {
        version,
        proved: found.proved,
    })
}
