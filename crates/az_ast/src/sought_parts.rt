//! What is looked for among the parts of an expression.

ghost use Rattle.std.specs.Prelude.{◌≡◌, ◌==◌, ◌-◌, ℕ, not, length, List, slice_get, Bool};
ghost use Rattle.std.specs.List.{list_any};
ghost use Rattle.az_ast.specs.Shapes.{has_other_arity, arity_differs, reduces_by_sub};
ghost use Rattle.az_ast.specs.Term.{Term, term};
ghost use Rattle.az_ast.specs.Walks.{own_domains, is_outside};

use crate::shape::is_sub;
use crate::walk::PartTest;
use crate::{Branch, Expr, Variable};
use az_lin::{Domain, Map};

/// An access with another number of indices than the variable has.
#[derive(Drop)]
pub(crate) struct OtherArity<'a> {
    pub params: usize,
    pub variables: &'a [Variable],
}

impl OtherArity<'_> {
    fn differs(&self, x: u32, f: &Map) -> bool
        ensures { result ≡ arity_differs self.now.params self.now.variables.now x f.now }
    {
        match self.variables.get(x as usize) {
            Some(variable) => f.rows().len() != variable.indices(self.params),
            None => false,
        }
    }
}

impl PartTest for OtherArity<'_> {
    ghost wants = { λ test part. has_other_arity test.params test.variables.now part };

    fn is_wanted(&self, part: &Expr) -> bool {
        match part {
            Expr::Access(x, f) => self.differs(*x, f),
            _ => false,
        }
    }
}

/// A reduction by difference.
#[derive(Drop)]
pub(crate) struct BadReduction;

impl PartTest for BadReduction {
    ghost wants = { λ test part. reduces_by_sub part };

    fn is_wanted(&self, part: &Expr) -> bool {
        match part {
            Expr::Reduce(op, _, _, _) => is_sub(*op),
            _ => false,
        }
    }
}

/// A domain whose number of disjuncts lies outside these bounds.
#[derive(Drop)]
pub(crate) struct OutsideBounds {
    pub least: usize,
    pub most: usize,
}

impl OutsideBounds {
    pub fn is_outside(&self, domain: &Domain) -> bool
        ensures { result ≡ is_outside self.now.least self.now.most domain.now }
    {
        let count = domain.disjuncts().len();
        count < self.least || self.most < count
    }

    fn has_branch(&self, branches: &[Branch]) -> bool
        ensures { result ≡ list_any (λ branch. is_outside self.now.least self.now.most branch.domain) branches.now }
    {
        branches
            .iter()
            .any(|branch| self.is_outside(&branch.domain))
    }
}

impl PartTest for OutsideBounds {
    ghost wants = { λ test part. list_any (is_outside test.least test.most) (own_domains part) };

    fn is_wanted(&self, part: &Expr) -> bool {
        match part {
            Expr::Cases(branches) => self.has_branch(branches.as_slice()),
            Expr::Reduce(_, _, domain, _) => self.is_outside(domain),
            _ => false,
        }
    }
}
