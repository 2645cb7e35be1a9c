//! The line of a step.

ghost use Rattle.std.specs.Prelude.{◌≡◌, ◌≢◌, ◌<◌, ◌^◌, List, ℕ, ℤ, MatchOption};
ghost use Rattle.az_lin.specs.declared.step.Step.{Step};
ghost use Rattle.cert_read.specs.Inner.Found.{IsStepLine};
ghost use Rattle.line_fields.specs.Fields.{IsWide, spaced};
ghost use Rattle.std.specs.Fmt.{decimal, signed_decimal};

use az_lin::Step;
use line_fields::{last_integer, spaced_integer, spaced_natural};

/// A weight, the number of its row, and what stands behind them.
#[derive(Debug, Drop)]
struct Pair<'a> {
    weight: i128,
    row: u32,
    rest: &'a [u8],
}

fn read_pair(line: &[u8]) -> Option<Pair<'_>>
    ensures { MatchOption result ((a : ℤ) (i : ℕ) (rest : List ℕ) → IsWide a → i < 2 ^ 32 → line.now ≢ spaced (signed_decimal a) (spaced (decimal i) rest))
        (λ got. IsWide got.weight × (got.row < 2 ^ 32) × (line.now ≡ spaced (signed_decimal got.weight) (spaced (decimal got.row) got.rest.now))) }
{
    let Some(weight) = spaced_integer(line) else {
        return None;
    };
    let Some(row) = spaced_natural(weight.rest) else {
        return None;
    };
    Some(Pair {
        weight: weight.value,
        row: row.value as u32,
        rest: row.rest,
    })
}

/// The step that the line is.
pub(crate) fn read_step(line: &[u8]) -> Option<Step>
    ensures { MatchOption result ((step : Step) → IsStepLine step line.now → ⊥) (λ step. IsStepLine step line.now) }
{
    let Some(first) = read_pair(line) else {
        return None;
    };
    let Some(second) = read_pair(first.rest) else {
        return None;
    };
    let Some(g) = last_integer(second.rest) else {
        return None;
    };
    Some(Step {
        a: first.weight,
        i: first.row,
        b: second.weight,
        j: second.row,
        g,
    })
}
