//! Domains.

ghost use Rattle.std.specs.Prelude.{◌≡◌, ◌+◌, ◌<◌, ◌^◌, ◌++◌, OnOk, flat_map, string_bytes};
ghost use Rattle.std.specs.List.{list_any};
ghost use Rattle.az_text.specs.Lumps.{bytes_of};
ghost use Rattle.az_text.specs.declared.mark.MarkKind.TheVariants.{BarBar, AndAnd};
ghost use Rattle.alphabets_show.specs.Pieces.{spaced};
ghost use Rattle.alphabets_show.specs.Sides.{indices, comparison, conjunction, disjunction, has_rows, behind_bar, domain as shown_domain, restriction};

use crate::names::{push_indices, push_names};
use crate::sides::push_affine;
use az_lin::{Conj, Domain, Name, Row};
use std::alloc::AllocError;

#[tactic(auto, using(crate::proofs::Texts::lumps_joined, crate::proofs::Texts::decimal_zero))]
fn push_comparison(text: &mut String, params: &[Name], row: &Row) -> Result<(), AllocError>
    ensures ok { OnOk result (string_bytes text.new ≡ string_bytes text.old ++ bytes_of (comparison params.now row.now)) }
{
    push_affine(text, params, row)?;
    text.push_str(">=0")
}

/// Further rows.
fn push_more_rows(text: &mut String, params: &[Name], rows: &[Row]) -> Result<(), AllocError>
    ensures ok { OnOk result (string_bytes text.new ≡ string_bytes text.old ++ bytes_of (flat_map (λ row. spaced AndAnd (comparison params.now row)) rows.now)) }
{
    for row in rows {
        text.push_str(" && ")?;
        push_comparison(text, params, row)?;
    }
    Ok(())
}

#[tactic(auto, using(crate::proofs::Texts::lumps_joined))]
fn push_conjunction(text: &mut String, params: &[Name], conj: &Conj) -> Result<(), AllocError>
    ensures ok { OnOk result (string_bytes text.new ≡ string_bytes text.old ++ bytes_of (conjunction params.now conj.now)) }
{
    match conj.rows() {
        [] => Ok(()),
        [first, rest @ ..] => {
            push_comparison(text, params, first)?;
            push_more_rows(text, params, rest)
        }
    }
}

/// Further disjuncts.
fn push_more_disjuncts(
    text: &mut String,
    params: &[Name],
    disjuncts: &[Conj],
) -> Result<(), AllocError>
    ensures ok { OnOk result (string_bytes text.new ≡ string_bytes text.old ++ bytes_of (flat_map (λ conj. spaced BarBar (conjunction params.now conj)) disjuncts.now)) }
{
    for conj in disjuncts {
        text.push_str(" || ")?;
        push_conjunction(text, params, conj)?;
    }
    Ok(())
}

#[tactic(auto, using(crate::proofs::Texts::lumps_joined))]
fn push_disjunction(
    text: &mut String,
    params: &[Name],
    disjuncts: &[Conj],
) -> Result<(), AllocError>
    ensures ok { OnOk result (string_bytes text.new ≡ string_bytes text.old ++ bytes_of (disjunction params.now disjuncts.now)) }
{
    match disjuncts {
        [] => Ok(()),
        [first, rest @ ..] => {
            push_conjunction(text, params, first)?;
            push_more_disjuncts(text, params, rest)
        }
    }
}

fn has_rows(disjuncts: &[Conj]) -> bool
    ensures { result ≡ list_any has_rows disjuncts.now }
{
    disjuncts.iter().any(|conj| !conj.rows().is_empty())
}

/// The rows of a domain between its bar and its end.
#[tactic(auto, using(crate::proofs::Texts::lumps_joined))]
fn push_behind_bar(text: &mut String, params: &[Name], domain: &Domain) -> Result<(), AllocError>
    ensures ok { OnOk result (string_bytes text.new ≡ string_bytes text.old ++ bytes_of (behind_bar params.now domain.now)) }
{
    let disjuncts = domain.disjuncts();
    text.push_str(if has_rows(disjuncts) { "| " } else { "|" })?;
    push_disjunction(text, params, disjuncts)?;
    text.push_str("}")
}

/// A restriction, which brings no names.
#[tactic(auto, using(crate::proofs::Texts::lumps_joined))]
pub(crate) fn push_restriction(
    text: &mut String,
    params: &[Name],
    domain: &Domain,
) -> Result<(), AllocError>
    ensures ok { OnOk result (string_bytes text.new ≡ string_bytes text.old ++ bytes_of (restriction params.now domain.now)) }
{
    text.push_str("{")?;
    push_behind_bar(text, params, domain)
}

/// The domain of the parameters.
#[tactic(auto, using(crate::proofs::Texts::lumps_joined))]
pub(crate) fn push_parameters(
    text: &mut String,
    params: &[Name],
    domain: &Domain,
) -> Result<(), AllocError>
    ensures ok { OnOk result (string_bytes text.new ≡ string_bytes text.old ++ bytes_of (shown_domain params.now params.now domain.now)) }
{
    text.push_str("{")?;
    push_names(text, params)?;
    if !params.is_empty() {
        text.push_str(" ")?;
    }
    push_behind_bar(text, params, domain)
}

/// The domain of a variable of so many indices.
#[tactic(auto, using(crate::proofs::Texts::lumps_joined))]
pub(crate) fn push_domain(
    text: &mut String,
    params: &[Name],
    count: usize,
    domain: &Domain,
) -> Result<(), AllocError>
    ensures ok { OnOk result (string_bytes text.new ≡ string_bytes text.old ++ bytes_of (shown_domain (indices 0 count) params.now domain.now)) }
{
    text.push_str("{")?;
    push_indices(text, 0, count)?;
    if count != 0 {
        text.push_str(" ")?;
    }
    push_behind_bar(text, params, domain)
}
