//! The points that one polyhedron holds and another does not, in disjoint pieces.

ghost use Rattle.std.specs.Prelude.{◌≡◌, ◌++◌, IfOk, ◌↔◌};
ghost use Rattle.std.specs.List.{All, Any, AllPairs};
ghost use Rattle.az_lin.specs.Affine.{HasWidth, HasEntries, Holds};
ghost use Rattle.az_lin.specs.Negation.{negated};
ghost use Rattle.az_lin.specs.Substitution.{Point};
ghost use Rattle.az_lin.specs.Answers as lin;
ghost use Rattle.az_poly.specs.Answers.{IsDifference};
ghost use Rattle.az_poly.specs.Operations.{piece};

use crate::PolyFault;
use crate::copies::push_copies;
use crate::fault::of_rows;
use az_lin::{Conj, Limit, LinFault, List, Row};
use std::alloc::Global;

const MOST_PIECES: usize = 256;

/// The rows of `conj`, then those before the row, then the negation of the row.
fn cut(alloc: Global, conj: &Conj, before: &[Row], row: &Row) -> Result<Conj, LinFault>
    requires widths { All (HasWidth conj.now.width) before.now }
    requires width { HasWidth conj.now.width row.now }
    ensures { lin.IsExactly (λ _. HasEntries (negated row.now)) (piece conj.now.width (conj.now.rows ++ before.now) row.now) result }
{
    let own = conj.rows();
    let mut rows = Vec::new(alloc);
    push_copies(alloc, &mut rows, own)?;
    push_copies(alloc, &mut rows, before)?;
    rows.push(row.negate(alloc)?)?;
    Ok(Conj::new(conj.width(), List::from_vec(rows)))
}

/// For each row of `b` the part of `a` where the rows before it are at least 0 and it is not.
/// With more than 256 pieces the answer is `Limit(Pieces)`, whatever their entries.
pub fn minus(alloc: Global, a: &Conj, b: &Conj) -> Result<List<Conj>, PolyFault>
    requires { a.now.width ≡ b.now.width }
    ensures exact { IsDifference a.now b.now result }
    ensures meaning { (z : Point) → IfOk result (λ pieces. Any (λ part. Holds part z) pieces ↔ (Holds a.now z × (Holds b.now z → ⊥))) }
    ensures disjoint { (z : Point) → IfOk result (λ pieces. AllPairs (λ part other. Holds part z → Holds other z → ⊥) pieces) }
{
    let removed = b.rows();
    if removed.len() > MOST_PIECES {
        return Err(PolyFault::Limit(Limit::Pieces));
    }
    let mut pieces = Vec::with_capacity(alloc, removed.len())?;
    'cuts: for number in 0..removed.len() {
        let before = &removed[..number];
        pieces.push(of_rows(cut(alloc, a, before, &removed[number]))?)?;
    }
    Ok(List::from_vec(pieces))
}
