//! The points that two domains both hold.

ghost use Rattle.std.specs.Prelude.{◌≡◌, ◌++◌, map, OnOk, IfOk, IfErr, ◌↔◌};
ghost use Rattle.std.specs.List.{All};
ghost use Rattle.az_lin.specs.Affine.{HoldsSome, IsOver};
ghost use Rattle.az_lin.specs.Substitution.{Point};
ghost use Rattle.az_poly.specs.Operations.{both, intersection};
ghost use Rattle.az_lin.specs.declared.fault.LinFault.TheVariants as lin;
ghost use Rattle.az_poly.specs.declared.fault.PolyFault.TheVariants.{Memory};

use crate::PolyFault;
use crate::copies::push_copies;
use crate::fault::of_rows;
use az_lin::{Conj, Domain, LinFault, List};
use std::alloc::Global;

fn meet_conjs(alloc: Global, first: &Conj, second: &Conj) -> Result<Conj, LinFault>
    requires { first.now.width ≡ second.now.width }
    ensures ok { IfOk result (λ conj. conj ≡ both first.now second.now) }
    ensures cause { IfErr result (λ fault. fault ≡ lin.Memory) }
{
    let (own, other) = (first.rows(), second.rows());
    let mut rows = Vec::with_capacity(alloc, own.len().saturating_add(other.len()))?;
    push_copies(alloc, &mut rows, own)?;
    push_copies(alloc, &mut rows, other)?;
    Ok(Conj::new(first.width(), List::from_vec(rows)))
}

/// Appends what the first has in common with each of the seconds.
fn push_meets(
    alloc: Global,
    met: &mut Vec<Conj>,
    first: &Conj,
    seconds: &[Conj],
) -> Result<(), LinFault>
    requires { All (IsOver first.now.width) seconds.now }
    ensures ok { OnOk result (met.new.items ≡ met.old.items ++ map (λ second. both first.now second) seconds.now) }
    ensures cause { IfErr result (λ fault. fault ≡ lin.Memory) }
{
    'seconds: for second in seconds {
        met.push(meet_conjs(alloc, first, second)?)?;
    }
    Ok(())
}

fn meet_domains(alloc: Global, a: &Domain, b: &Domain) -> Result<Domain, LinFault>
    requires { a.now.width ≡ b.now.width }
    ensures ok { IfOk result (λ met. met ≡ intersection a.now b.now) }
    ensures meaning { (z : Point) → IfOk result (λ met. HoldsSome met z ↔ (HoldsSome a.now z × HoldsSome b.now z)) }
    ensures cause { IfErr result (λ fault. fault ≡ lin.Memory) }
{
    let seconds = b.disjuncts();
    let mut met = Vec::new(alloc);
    'firsts: for first in a.disjuncts() {
        push_meets(alloc, &mut met, first, seconds)?;
    }
    Domain::of_list(a.width(), List::from_vec(met))
}

/// Each disjunct of `a` with each of `b`, those of `b` going faster: the rows of both.
pub fn meet(alloc: Global, a: &Domain, b: &Domain) -> Result<Domain, PolyFault>
    requires { a.now.width ≡ b.now.width }
    ensures ok { IfOk result (λ met. met ≡ intersection a.now b.now) }
    ensures meaning { (z : Point) → IfOk result (λ met. HoldsSome met z ↔ (HoldsSome a.now z × HoldsSome b.now z)) }
    ensures cause { IfErr result (λ fault. fault ≡ Memory) }
{
    of_rows(meet_domains(alloc, a, b))
}
