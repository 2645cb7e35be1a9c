//! What is in force at a read or an output, over the columns of a writer behind its own.

ghost use Rattle.std.specs.Prelude.{◌≡◌, ◌≤◌, ◌++◌, List, All, OnOk, IfOk};
ghost use Rattle.domain_check.specs.Context.{context};
ghost use Rattle.formula_refute.specs.Claims.{Claim};
ghost use Rattle.life_sets.specs.Around.{AreAround};
ghost use Rattle.order_sets.specs.Made.{AreMade};

use az_lin::Domain;
use expr_places::Scope;
use order_sets::{Members, context_over, push_context, push_domains};
use std::alloc::{AllocError, Global};

/// The scope of a place, and the domains in force there over so many columns: they are made once for all
/// writers with as many indices.
#[derive(Debug, Drop)]
pub(crate) struct Around<'a> {
    pub(crate) scope: &'a Scope<'a>,
    width: usize,
    domains: Vec<Domain>,
}

impl<'a> Around<'a> {
    pub(crate) fn new(
        alloc: Global,
        scope: &'a Scope<'a>,
        width: usize,
    ) -> Result<Around<'a>, AllocError>
        requires inside { All (λ domain. domain.width ≤ width) scope.now.domains }
        requires narrow { width ≤ 4096 }
        ensures scope { IfOk result (λ around. around.scope.now ≡ scope.now) }
        ensures domains { IfOk result AreAround }
    {
        let domains = context_over(alloc, scope, width)?;
        Ok(Around {
            scope,
            width,
            domains,
        })
    }

    /// All that is in force at the place is, over so many columns.
    pub(crate) fn push(
        &self,
        members: &mut Members,
        alloc: Global,
        width: usize,
    ) -> Result<(), AllocError>
        requires around { AreAround self.now }
        requires inside { All (λ domain. domain.width ≤ width) self.now.scope.now.domains }
        requires narrow { width ≤ 4096 }
        ensures { (cs : List Claim) → OnOk result (AreMade cs members.old → AreMade (cs ++ context (record self.now.scope.now { width = width })) members.new) }
    {
        if width == self.width {
            return push_domains(members, alloc, self.domains.as_slice());
        }
        push_context(members, alloc, self.scope, width)
    }
}
