//! Certificates written as text.

ghost use Rattle.std.specs.Prelude.{◌≡◌, ◌++◌, ◌∷◌, [], All, OnOk, IfOk, map, string_bytes};
ghost use Rattle.cert_text.specs.Answers.{Writes};
ghost use Rattle.cert_text.specs.Lines.{IsOfProgram, case_line, case_lines, proved_lines, step_line, text_of, which_line};
ghost use Rattle.cert_text.specs.Versions.{IsVersion};
ghost use Rattle.grammar_rules.specs.Lines.{joined};
ghost use Rattle.line_fields.specs.Fields.{spaced};
ghost use Rattle.std.specs.Fmt.{decimal, signed_decimal};
ghost use Rattle.target_map.specs.Refusals.{name_of};

use crate::{CertFault, Certificate, Proved};
use az_ast::Program;
use az_lin::{Derivation, Limit, List, Step};
use std::alloc::{AllocError, Global};
use target_map::Which;

/// The most bytes of a file.
const MOST_BYTES: usize = 1 << 24;

fn name_of(program: &Program, variable: u32) -> &str
    ensures { result.now ≡ name_of program.now variable }
{
    match program.variables().get(variable as usize) {
        Some(variable) => variable.name.as_str(),
        None => "",
    }
}

/// Appends the line with the formula's name.
fn push_which(text: &mut String, program: &Program, which: Which) -> Result<(), AllocError>
    ensures { OnOk result (string_bytes text.new ≡ string_bytes text.old ++ joined (which_line program.now which ∷ [])) }
{
    match which {
        Which::Order { reader, read } => {
            let reader = name_of(program, reader);
            write!(text, "Order {reader} {read}\n")
        }
        Which::Life {
            reader,
            read,
            writer,
        } => {
            let reader = name_of(program, reader);
            let writer = name_of(program, writer);
            write!(text, "Life {reader} {read} {writer}\n")
        }
        Which::Keep { output, writer } => {
            let output = name_of(program, output);
            let writer = name_of(program, writer);
            write!(text, "Keep {output} {writer}\n")
        }
    }
}

/// Appends a weight and the number of its row, each with a space behind it.
fn push_pair(text: &mut String, weight: &i128, row: u32) -> Result<(), AllocError>
    ensures { OnOk result (string_bytes text.new ≡ string_bytes text.old ++ spaced (signed_decimal weight.now) (spaced (decimal row) [])) }
{
    write!(text, "{weight} {row} ")
}

/// Appends a divisor and the end of the line.
fn push_divisor(text: &mut String, divisor: &i128) -> Result<(), AllocError>
    ensures { OnOk result (string_bytes text.new ≡ string_bytes text.old ++ joined (signed_decimal divisor.now ∷ [])) }
{
    write!(text, "{divisor}\n")
}

fn push_step(text: &mut String, step: &Step) -> Result<(), AllocError>
    ensures { OnOk result (string_bytes text.new ≡ string_bytes text.old ++ joined (step_line step.now ∷ [])) }
{
    push_pair(text, &step.a, step.i)?;
    push_pair(text, &step.b, step.j)?;
    push_divisor(text, &step.g)?;
    Ok(())
}

/// Appends the lines of the steps.
fn push_steps(text: &mut String, steps: &[Step]) -> Result<(), AllocError>
    ensures { OnOk result (string_bytes text.new ≡ string_bytes text.old ++ joined (map step_line steps.now)) }
{
    'steps: for step in steps {
        push_step(text, step)?;
    }
    Ok(())
}

/// Appends the line with the case's number.
fn push_case(text: &mut String, number: usize) -> Result<(), AllocError>
    ensures { OnOk result (string_bytes text.new ≡ string_bytes text.old ++ joined (case_line number ∷ [])) }
{
    write!(text, "case {number}\n")
}

/// Appends the lines of the cases, numbered from 0.
fn push_cases(text: &mut String, derivations: &[Derivation]) -> Result<(), AllocError>
    ensures { OnOk result (string_bytes text.new ≡ string_bytes text.old ++ joined (case_lines 0 derivations.now)) }
{
    'cases: for number in 0..derivations.len() {
        push_case(text, number)?;
        push_steps(text, derivations[number].steps.as_slice())?;
    }
    Ok(())
}

fn push_proved(text: &mut String, program: &Program, proved: &Proved) -> Result<(), AllocError>
    ensures { OnOk result (string_bytes text.new ≡ string_bytes text.old ++ joined (proved_lines program.now proved.now)) }
{
    push_which(text, program, proved.which)?;
    push_cases(text, proved.derivations.as_slice())
}

/// The certificate's text.
fn written(
    alloc: Global,
    certificate: &Certificate,
    program: &Program,
) -> Result<String, AllocError>
    ensures { IfOk result (λ text. string_bytes text ≡ text_of program.now certificate.now) }
{
    let version = certificate.version;
    let mut text = format!(in alloc; "alphaz-certificate {version}\n")?;
    let proved = certificate.proved.as_slice();
    'proofs: for number in 0..proved.len() {
        push_proved(&mut text, program, &proved[number])?;
    }
    Ok(text)
}

/// The certificate's text. `Limit(File)` exactly where it has more bytes than a file may have.
pub fn write_certificate(
    alloc: Global,
    certificate: &Certificate,
    program: &Program,
) -> Result<List<u8>, CertFault>
    requires version { IsVersion certificate.now.version }
    requires own { All (λ proved. IsOfProgram program.now proved.which) certificate.now.proved }
    ensures answer { Writes program.now certificate.now result }
{
    let text = written(alloc, certificate, program)?;
    if text.len() > MOST_BYTES {
        return Err(CertFault::Limit(Limit::File));
    }
    Ok(List::from_vec(text.into_bytes()))
}
