//! Domains, over a scope.

ghost use Rattle.std.specs.Prelude.{◌≡◌, ◌∷◌, [], false, map, IfOk, IfErr};
ghost use Rattle.std.specs.List.{list_any};
ghost use Rattle.az_lin.specs.declared.fault.LinFault.TheVariants.{Memory};
ghost use Rattle.program_names.specs.Pieces.{rows, domain_pieces};
ghost use Rattle.program_names.specs.Refusals.{has_entry_out, is_wide_row};
ghost use Rattle.program_names.specs.Sides.{row_of, of_chains, conjunction_of, union_of};

use crate::chains::conjunction;
use az_lin::{Conj, Domain, LinFault, List};
use program_grammar::Chain;
use side_rows::Scope;
use std::alloc::Global;

/// The domain of one list of chains, whose entries are in range.
pub(crate) fn plain_domain(
    alloc: Global,
    scope: &Scope<'_>,
    chains: &[Chain],
) -> Result<Domain, LinFault>
    requires { list_any is_wide_row (rows scope.now chains.now) ≡ false }
    ensures ok { IfOk result (λ domain. domain ≡ union_of scope.now (chains.now ∷ [])) }
    ensures cause { IfErr result (λ fault. fault ≡ Memory) }
{
    let conj = conjunction(alloc, scope, chains)?;
    Domain::of_conj(alloc, conj)
}

fn conjunctions(
    alloc: Global,
    scope: &Scope<'_>,
    disjuncts: &[List<Chain>],
) -> Result<List<Conj>, LinFault>
    requires { list_any (λ chains. list_any has_entry_out (map (row_of scope.now) (of_chains chains))) disjuncts.now ≡ false }
    ensures ok { IfOk result (λ conjs. conjs ≡ map (conjunction_of scope.now) disjuncts.now) }
    ensures cause { IfErr result (λ fault. fault ≡ Memory) }
{
    let mut conjs = Vec::with_capacity(alloc, disjuncts.len())?;
    'disjuncts: for chains in disjuncts {
        conjs.push(conjunction(alloc, scope, chains.as_slice())?)?;
    }
    Ok(List::from_vec(conjs))
}

/// The domain of lists of chains, whose entries are in range.
pub(crate) fn domain(
    alloc: Global,
    scope: &Scope<'_>,
    disjuncts: &[List<Chain>],
) -> Result<Domain, LinFault>
    requires { list_any is_wide_row (domain_pieces scope.now disjuncts.now) ≡ false }
    ensures ok { IfOk result (λ domain. domain ≡ union_of scope.now disjuncts.now) }
    ensures cause { IfErr result (λ fault. fault ≡ Memory) }
{
    // what isn't written is one conjunction without rows
    if disjuncts.is_empty() {
        return plain_domain(alloc, scope, &[]);
    }
    let conjs = conjunctions(alloc, scope, disjuncts)?;
    Domain::of_list(scope.len(), conjs)
}
