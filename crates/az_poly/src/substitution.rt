//! Domains before a map and moved by a vector.

ghost use Rattle.std.specs.Prelude.{◌≡◌, ◌≤◌, length, IfOk, ◌↔◌};
ghost use Rattle.std.specs.List.{All};
ghost use Rattle.az_lin.specs.Affine.{HasEntryConj, HasEntryDomain, HoldsSome, IsEntry, image_of};
ghost use Rattle.az_lin.specs.Answers as lin;
ghost use Rattle.az_lin.specs.Substitution.{Point, less};
ghost use Rattle.az_poly.specs.Answers.{IsExactly};
ghost use Rattle.az_poly.specs.Operations.{conj_before, domain_before, conj_moved, domain_moved};

use crate::PolyFault;
use crate::fault::of_rows;
use az_lin::{Conj, Domain, LinFault, List, Map};
use std::alloc::Global;

fn conj_preimage(alloc: Global, conj: &Conj, f: &Map) -> Result<Conj, LinFault>
    requires rows { length f.now.rows ≡ conj.now.width }
    requires narrow { conj.now.width ≤ 64 }
    ensures { lin.IsExactly HasEntryConj (conj_before f.now conj.now) result }
{
    let own = conj.rows();
    let mut rows = Vec::with_capacity(alloc, own.len())?;
    'rows: for row in own {
        rows.push(row.compose(alloc, f)?)?;
    }
    Ok(Conj::new(f.width(), List::from_vec(rows)))
}

fn conj_translate(alloc: Global, conj: &Conj, v: &[i128]) -> Result<Conj, LinFault>
    requires width { length v.now ≡ conj.now.width }
    requires narrow { length v.now ≤ 64 }
    requires range { All IsEntry v.now }
    ensures { lin.IsExactly HasEntryConj (conj_moved v.now conj.now) result }
{
    let own = conj.rows();
    let mut rows = Vec::with_capacity(alloc, own.len())?;
    'rows: for row in own {
        rows.push(row.shift(alloc, v)?)?;
    }
    Ok(Conj::new(conj.width(), List::from_vec(rows)))
}

fn domain_preimage(alloc: Global, d: &Domain, f: &Map) -> Result<Domain, LinFault>
    requires rows { length f.now.rows ≡ d.now.width }
    requires narrow { d.now.width ≤ 64 }
    ensures exact { lin.IsExactly HasEntryDomain (domain_before f.now d.now) result }
    ensures meaning { (z : Point) → IfOk result (λ before. HoldsSome before z ↔ HoldsSome d.now (image_of f.now z)) }
{
    let own = d.disjuncts();
    let mut disjuncts = Vec::with_capacity(alloc, own.len())?;
    'conjs: for conj in own {
        disjuncts.push(conj_preimage(alloc, conj, f)?)?;
    }
    Domain::of_list(f.width(), List::from_vec(disjuncts))
}

/// The points that `f` takes into `d`.
pub fn preimage(alloc: Global, d: &Domain, f: &Map) -> Result<Domain, PolyFault>
    requires rows { length f.now.rows ≡ d.now.width }
    requires narrow { d.now.width ≤ 64 }
    ensures exact { IsExactly HasEntryDomain (domain_before f.now d.now) result }
    ensures meaning { (z : Point) → IfOk result (λ before. HoldsSome before z ↔ HoldsSome d.now (image_of f.now z)) }
{
    of_rows(domain_preimage(alloc, d, f))
}

/// The points into which the map with this inverse takes `d`: those that the inverse takes into it.
pub fn image_by_inverse(alloc: Global, d: &Domain, inverse: &Map) -> Result<Domain, PolyFault>
    requires rows { length inverse.now.rows ≡ d.now.width }
    requires narrow { d.now.width ≤ 64 }
    ensures exact { IsExactly HasEntryDomain (domain_before inverse.now d.now) result }
    ensures meaning { (z : Point) → IfOk result (λ image. HoldsSome image z ↔ HoldsSome d.now (image_of inverse.now z)) }
{
    preimage(alloc, d, inverse)
}

fn domain_translate(alloc: Global, d: &Domain, v: &[i128]) -> Result<Domain, LinFault>
    requires width { length v.now ≡ d.now.width }
    requires narrow { length v.now ≤ 64 }
    requires range { All IsEntry v.now }
    ensures exact { lin.IsExactly HasEntryDomain (domain_moved v.now d.now) result }
    ensures meaning { (z : Point) → length z ≡ length v.now → IfOk result (λ moved. HoldsSome moved z ↔ HoldsSome d.now (less z v.now)) }
{
    let own = d.disjuncts();
    let mut disjuncts = Vec::with_capacity(alloc, own.len())?;
    'conjs: for conj in own {
        disjuncts.push(conj_translate(alloc, conj, v)?)?;
    }
    Domain::of_list(d.width(), List::from_vec(disjuncts))
}

/// The domain moved by `v`: it holds `z` where `d` holds `z - v`.
pub fn translate(alloc: Global, d: &Domain, v: &[i128]) -> Result<Domain, PolyFault>
    requires width { length v.now ≡ d.now.width }
    requires narrow { length v.now ≤ 64 }
    requires range { All IsEntry v.now }
    ensures exact { IsExactly HasEntryDomain (domain_moved v.now d.now) result }
    ensures meaning { (z : Point) → length z ≡ length v.now → IfOk result (λ moved. HoldsSome moved z ↔ HoldsSome d.now (less z v.now)) }
{
    of_rows(domain_translate(alloc, d, v))
}
