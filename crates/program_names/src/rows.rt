//! Tests of the rows of chains and of domains.

ghost use Rattle.std.specs.Prelude.{◌≡◌, map, length};
ghost use Rattle.std.specs.List.{list_any};
ghost use Rattle.program_names.specs.Pieces as pieces;
ghost use Rattle.program_names.specs.Pieces.{rows, domain_pieces};
ghost use Rattle.program_names.specs.Sides.{alone, differences, of_links, of_chain};

use crate::links::differences;
use crate::piece::{Piece, PieceTest};
use az_lin::List;
use program_grammar::{Chain, Link, Term};
use side_rows::{Difference, Scope};

fn is_wanted<P: PieceTest>(test: &P, scope: &Scope<'_>, difference: &Difference<'_>) -> bool
    ensures { result ≡ P.wants test.now (pieces.row scope.now difference.now) }
{
    test.is_wanted(&Piece::Row(scope, difference))
}

/// Whether the row of a side alone passes.
pub(crate) fn is_side_wanted<P: PieceTest>(test: &P, scope: &Scope<'_>, side: &[Term]) -> bool
    ensures { result ≡ P.wants test.now (pieces.row scope.now (alone side.now)) }
{
    is_wanted(test, scope, &Difference::alone(side))
}

/// Whether the row of one of the sides passes.
pub(crate) fn some_side<P: PieceTest>(test: &P, scope: &Scope<'_>, sides: &[List<Term>]) -> bool
    ensures { result ≡ list_any (λ side. P.wants test.now (pieces.row scope.now (alone side))) sides.now }
{
    sides
        .iter()
        .any(|side| is_side_wanted(test, scope, side.as_slice()))
}

/// Whether a row of two neighbours in a chain passes.
fn some_of_link<P: PieceTest>(test: &P, scope: &Scope<'_>, left: &[Term], link: &Link) -> bool
    ensures { result ≡ list_any (P.wants test.now) (map (pieces.row scope.now) (differences link.now.relation left.now link.now.side)) }
{
    let (first, second) = differences(left, link);
    if is_wanted(test, scope, &first) {
        return true;
    }
    match second {
        Some(second) => is_wanted(test, scope, &second),
        None => false,
    }
}

/// Whether a row of a chain passes.
fn some_of_chain<P: PieceTest>(test: &P, scope: &Scope<'_>, chain: &Chain) -> bool
    ensures { result ≡ list_any (P.wants test.now) (map (pieces.row scope.now) (of_chain chain.now)) }
{
    let mut left = chain.first.as_slice();
    'links: for link in chain.links.as_slice() {
        if some_of_link(test, scope, left, link) {
            return true;
        }
        left = link.side.as_slice();
    }
    false
}

fn some_of_chains<P: PieceTest>(test: &P, scope: &Scope<'_>, chains: &[Chain]) -> bool
    ensures { result ≡ list_any (λ chain. list_any (P.wants test.now) (map (pieces.row scope.now) (of_chain chain))) chains.now }
{
    chains.iter().any(|chain| some_of_chain(test, scope, chain))
}

/// Whether a row of the chains passes.
pub(crate) fn some_row<P: PieceTest>(test: &P, scope: &Scope<'_>, chains: &[Chain]) -> bool
    ensures { result ≡ list_any (P.wants test.now) (rows scope.now chains.now) }
{
    some_of_chains(test, scope, chains)
}

fn some_of_disjuncts<P: PieceTest>(test: &P, scope: &Scope<'_>, disjuncts: &[List<Chain>]) -> bool
    ensures { result ≡ list_any (λ chains. list_any (P.wants test.now) (rows scope.now chains)) disjuncts.now }
{
    disjuncts
        .iter()
        .any(|chains| some_row(test, scope, chains.as_slice()))
}

/// Whether a piece of the domain passes.
pub(crate) fn some_of_domain<P: PieceTest>(
    test: &P,
    scope: &Scope<'_>,
    disjuncts: &[List<Chain>],
) -> bool
    ensures { result ≡ list_any (P.wants test.now) (domain_pieces scope.now disjuncts.now) }
{
    if test.is_wanted(&Piece::Domain(disjuncts.len())) {
        return true;
    }
    some_of_disjuncts(test, scope, disjuncts)
}
