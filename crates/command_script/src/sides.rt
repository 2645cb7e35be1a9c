//! The rows of a script's map as sides.

ghost use Rattle.std.specs.Prelude.{◌≡◌, map, IfOk, IfErr};
ghost use Rattle.az_lin.specs.declared.fault.LinFault.TheVariants.{Memory};
ghost use Rattle.command_script.specs.Resolved.{side_term, side_of};

use az_lin::{LinFault, List, Name, TryCopy};
use grammar_rules::Term;
use script_grammar::TermText;
use std::alloc::Global;

fn name_of(alloc: Global, term: &TermText) -> Result<Option<Name>, LinFault>
    ensures ok { IfOk result (λ name. name ≡ term.now.name) }
    ensures cause { IfErr result (λ fault. fault ≡ Memory) }
{
    match &term.name {
        Some(name) => Ok(Some(name.copy(alloc)?)),
        None => Ok(None),
    }
}

fn side_term(alloc: Global, term: &TermText) -> Result<Term, LinFault>
    ensures ok { IfOk result (λ one. one ≡ side_term term.now) }
    ensures cause { IfErr result (λ fault. fault ≡ Memory) }
{
    Ok(Term {
        negative: term.factor < 0,
        factor: term.factor.unsigned_abs(),
        name: name_of(alloc, term)?,
    })
}

fn side(alloc: Global, row: &[TermText]) -> Result<List<Term>, LinFault>
    ensures ok { IfOk result (λ side. side ≡ side_of row.now) }
    ensures cause { IfErr result (λ fault. fault ≡ Memory) }
{
    let mut terms = Vec::with_capacity(alloc, row.len())?;
    'terms: for term in row {
        terms.push(side_term(alloc, term)?)?;
    }
    Ok(List::from_vec(terms))
}

/// The sides of the rows, in their order.
pub(crate) fn sides(alloc: Global, rows: &[List<TermText>]) -> Result<List<List<Term>>, LinFault>
    ensures ok { IfOk result (λ sides. sides ≡ map side_of rows.now) }
    ensures cause { IfErr result (λ fault. fault ≡ Memory) }
{
    let mut sides = Vec::with_capacity(alloc, rows.len())?;
    'rows: for row in rows {
        sides.push(side(alloc, row.as_slice())?)?;
    }
    Ok(List::from_vec(sides))
}
