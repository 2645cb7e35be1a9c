//! Groups of lines: the steps of a case, the cases of a proof, and the proofs of a certificate.

ghost use Rattle.std.specs.Prelude.{◌≡◌, ◌↔◌, ◌≤◌, ℕ, IsTrue, IfOk, MatchOption, drop, length};
ghost use Rattle.az_ast.specs.Writable.{IsWritable};
ghost use Rattle.cert_read.specs.Inner.Found.{IsCaseLine, IsSomeName, IsSomeStep, IsNameLine, IsStepLine};
ghost use Rattle.cert_read.specs.Inner.Groups.{AreCases, AreProofs, AreSteps, Begins, IsTaken};
ghost use Rattle.cert_text.specs.Lines.{step_line, which_line, IsNarrowName, IsOfProgram, IsSpelledStep};

use crate::name_lines::read_name;
use crate::step_lines::read_step;
use az_ast::Program;
use az_lin::{Derivation, List, Step};
use cert_text::Proved;
use grammar_rules::{Line, behind};
use line_fields::last_natural;
use std::alloc::{AllocError, Global};
use target_map::Which;

/// The steps of a case, and the place of the first line behind them.
#[derive(Debug, Drop)]
pub(crate) struct Steps {
    steps: List<Step>,
    end: usize,
}

/// The cases of a proof, and the place of the first line behind them.
#[derive(Debug, Drop)]
pub(crate) struct Cases {
    derivations: List<Derivation>,
    end: usize,
}

/// The proofs of a certificate, and the place of the first line behind them.
#[derive(Debug, Drop)]
pub(crate) struct Proofs {
    pub(crate) proved: List<Proved>,
    pub(crate) end: usize,
}

/// The step at the place.
fn step_at(lines: &[Line<'_>], place: usize) -> Option<Step>
    ensures { MatchOption result (Begins IsSomeStep (drop place lines.now) → ⊥) (λ step. IsSpelledStep step × IsTaken lines.now place (step_line step)) }
{
    let Some(line) = lines.get(place) else {
        return None;
    };
    read_step(line.bytes())
}

/// Whether the line has the case's number.
fn is_case(line: &[u8], number: usize) -> bool
    ensures { IsTrue result ↔ IsCaseLine number line.now }
{
    let Some(digits) = behind(line, b"case ") else {
        return false;
    };
    let Some(given) = last_natural(digits) else {
        return false;
    };
    given as usize == number
}

/// Whether the line at the place has the case's number.
fn is_case_at(lines: &[Line<'_>], place: usize, number: usize) -> bool
    ensures { IsTrue result ↔ Begins (IsCaseLine number) (drop place lines.now) }
{
    let Some(line) = lines.get(place) else {
        return false;
    };
    is_case(line.bytes(), number)
}

/// The formula that the line at the place names.
fn name_at(program: &Program, lines: &[Line<'_>], place: usize) -> Option<Which>
    requires { IsWritable program.now }
    ensures { MatchOption result (Begins (IsSomeName program.now) (drop place lines.now) → ⊥)
        (λ which. IsOfProgram program.now which × IsNarrowName which × IsTaken lines.now place (which_line program.now which)) }
{
    let Some(line) = lines.get(place) else {
        return None;
    };
    read_name(program, line.bytes())
}

fn read_steps(alloc: Global, lines: &[Line<'_>], from: usize) -> Result<Steps, AllocError>
    requires { from ≤ length lines.now }
    ensures { IfOk result (AreSteps lines.now from) }
{
    let mut steps = Vec::new(alloc);
    let mut end = from;
    'steps: while let Some(step) = step_at(lines, end) {
        steps.push(step)?;
        end += 1;
    }
    Ok(Steps {
        steps: List::from_vec(steps),
        end,
    })
}

fn read_cases(alloc: Global, lines: &[Line<'_>], from: usize) -> Result<Cases, AllocError>
    requires { from ≤ length lines.now }
    ensures { IfOk result (AreCases lines.now from) }
{
    let mut derivations = Vec::new(alloc);
    let mut end = from;
    'cases: while is_case_at(lines, end, derivations.len()) {
        let found = read_steps(alloc, lines, end + 1)?;
        end = found.end;
        derivations.push(Derivation { steps: found.steps })?;
    }
    Ok(Cases {
        derivations: List::from_vec(derivations),
        end,
    })
}

/// The proofs from the place on.
pub(crate) fn read_proofs(
    alloc: Global,
    program: &Program,
    lines: &[Line<'_>],
    from: usize,
) -> Result<Proofs, AllocError>
    requires writable { IsWritable program.now }
    requires within { from ≤ length lines.now }
    ensures { IfOk result (AreProofs program.now lines.now from) }
{
    let mut proved = Vec::new(alloc);
    let mut end = from;
    'proofs: while let Some(which) = name_at(program, lines, end) {
        let found = read_cases(alloc, lines, end + 1)?;
        end = found.end;
        proved.push(Proved {
            which,
            derivations: found.derivations,
        })?;
    }
    Ok(Proofs {
        proved: List::from_vec(proved),
        end,
    })
}
