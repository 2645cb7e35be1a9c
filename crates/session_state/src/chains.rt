//! Points of a program's variables in text.

ghost use Rattle.std.specs.Prelude.{◌≡◌, ◌++◌, [], OnOk, IfOk, slice_get, unwrap_or, string_bytes};
ghost use Rattle.session_state.specs.Chains.{named_point, chain_text};

use crate::coordinates::joined;
use az_lin::Name;
use std::alloc::{AllocError, Global};
use value_walk::PointName;

fn name_of(names: &[Name], variable: u32) -> &str
    ensures { result.now ≡ unwrap_or (slice_get names.now variable) [] }
{
    match names.get(variable as usize) {
        Some(name) => name.as_str(),
        None => "",
    }
}

/// Appends a space and the point.
fn push_point(
    alloc: Global,
    text: &mut String,
    names: &[Name],
    at: &PointName,
) -> Result<(), AllocError>
    ensures { OnOk result (string_bytes text.new ≡ string_bytes text.old ++ named_point names.now at.now) }
{
    let name = name_of(names, at.variable);
    let point = joined(alloc, 1, at.point.as_slice())?;
    write!(text, " {name}[{point}]")
}

/// The points of a chain, each behind a space. Their variables have these names, by their numbers.
pub(crate) fn chain_text(
    alloc: Global,
    names: &[Name],
    chain: &[PointName],
) -> Result<String, AllocError>
    ensures { IfOk result (λ text. string_bytes text ≡ chain_text names.now chain.now) }
{
    let mut text = String::new(alloc);
    'points: for at in chain {
        push_point(alloc, &mut text, names, at)?;
    }
    Ok(text)
}
