//! The rows of chains, over a scope.

ghost use Rattle.std.specs.Prelude.{◌≡◌, ◌++◌, ◌∷◌, [], false, map, IfOk, IfErr};
ghost use Rattle.std.specs.List.{list_any};
ghost use Rattle.az_lin.specs.declared.fault.LinFault.TheVariants.{Memory};
ghost use Rattle.program_names.specs.Refusals.{has_entry_out};
ghost use Rattle.program_names.specs.Sides.{row_of, less, differences, of_chain, of_chains, conjunction_of};

use crate::links::differences;
use az_lin::{Conj, LinFault, List, Row};
use program_grammar::{Chain, Link, Term};
use side_rows::{Difference, Scope};
use std::alloc::Global;

/// The rows, and one more.
fn with_row(
    alloc: Global,
    scope: &Scope<'_>,
    difference: &Difference<'_>,
    rows: List<Row>,
) -> Result<List<Row>, LinFault>
    requires { has_entry_out (row_of scope.now difference.now) ≡ false }
    ensures ok { IfOk result (λ more. more ≡ rows ++ row_of scope.now difference.now ∷ []) }
    ensures cause { IfErr result (λ fault. fault ≡ Memory) }
{
    let row = difference.row(alloc, scope)?;
    let mut more = rows;
    more.push(row)?;
    Ok(more)
}

/// The rows, and those of two neighbours in a chain.
fn with_link(
    alloc: Global,
    scope: &Scope<'_>,
    left: &[Term],
    link: &Link,
    rows: List<Row>,
) -> Result<List<Row>, LinFault>
    requires { list_any has_entry_out (map (row_of scope.now) (differences link.now.relation left.now link.now.side)) ≡ false }
    ensures ok { IfOk result (λ more. more ≡ rows ++ map (row_of scope.now) (differences link.now.relation left.now link.now.side)) }
    ensures cause { IfErr result (λ fault. fault ≡ Memory) }
{
    let (first, second) = differences(left, link);
    let more = with_row(alloc, scope, &first, rows)?;
    match second {
        Some(second) => with_row(alloc, scope, &second, more),
        None => Ok(more),
    }
}

/// The rows, and those of a chain.
fn with_chain(
    alloc: Global,
    scope: &Scope<'_>,
    chain: &Chain,
    rows: List<Row>,
) -> Result<List<Row>, LinFault>
    requires { list_any has_entry_out (map (row_of scope.now) (of_chain chain.now)) ≡ false }
    ensures ok { IfOk result (λ more. more ≡ rows ++ map (row_of scope.now) (of_chain chain.now)) }
    ensures cause { IfErr result (λ fault. fault ≡ Memory) }
{
    let mut left = chain.first.as_slice();
    let mut more = rows;
    'links: for link in chain.links.as_slice() {
        more = with_link(alloc, scope, left, link, more)?;
        left = link.side.as_slice();
    }
    Ok(more)
}

/// The conjunction of chains, whose entries are in range.
pub(crate) fn conjunction(
    alloc: Global,
    scope: &Scope<'_>,
    chains: &[Chain],
) -> Result<Conj, LinFault>
    requires { list_any has_entry_out (map (row_of scope.now) (of_chains chains.now)) ≡ false }
    ensures ok { IfOk result (λ conj. conj ≡ conjunction_of scope.now chains.now) }
    ensures cause { IfErr result (λ fault. fault ≡ Memory) }
{
    let mut rows = List::new(alloc);
    'chains: for chain in chains {
        rows = with_chain(alloc, scope, chain, rows)?;
    }
    Ok(Conj::new(scope.len(), rows))
}
