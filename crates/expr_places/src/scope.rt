//! What is in force at a place of an equation.

ghost use Rattle.std.specs.Prelude.{◌≡◌, [], ◌∷◌, ◌++◌, map, IfOk, OnOk, OnErr};
ghost use Rattle.expr_places.specs.Places.{body_scope, under_branch, under_reduction};

use az_ast::{Program, Variable};
use az_lin::Domain;
use std::alloc::{AllocError, Global};
use std::marker::Model;

/// Domains that are lent, from outside to inside.
#[derive(Debug, Drop)]
pub struct Domains<'a> {
    items: Vec<&'a Domain>,
}

impl<'a> Model for Domains<'a> {
    ghost use Rattle.std.specs.Prelude.{List, map};
    ghost use Rattle.az_lin.specs.Affine.{Union};

    ghost Value = { List Union };

    ghost view = { λ domains. map (λ domain. domain.now) domains.items.items };
}

impl<'a> Domains<'a> {
    pub fn new(alloc: Global) -> Domains<'a>
        ensures { result ≡ [] }
    {
        Domains {
            items: Vec::new(alloc),
        }
    }

    /// Puts a domain inside all others.
    pub fn push(&mut self, domain: &'a Domain) -> Result<(), AllocError>
        ensures ok { OnOk result (self.new ≡ self.old ++ domain.now ∷ []) }
        ensures err { OnErr result (self.new ≡ self.old) }
    {
        self.items.push(domain)?;
        Ok(())
    }

    pub fn as_slice(&self) -> &[&'a Domain]
        ensures { map (λ domain. domain.now) result.now ≡ self.now }
    {
        self.items.as_slice()
    }

    /// The same domains, lent once more.
    pub fn copy(&self, alloc: Global) -> Result<Domains<'a>, AllocError>
        ensures { IfOk result (λ domains. domains ≡ self.now) }
    {
        let items = Vec::from_slice(alloc, self.items.as_slice())?;
        Ok(Domains { items })
    }
}

/// The domains in force, those of them that are of reductions, and how many columns there are.
#[derive(Debug, Drop)]
pub struct Scope<'a> {
    pub domains: Domains<'a>,
    pub reductions: Domains<'a>,
    pub width: usize,
}

impl<'a> Scope<'a> {
    /// What is in force in the whole body of a variable's equation.
    pub fn of_body(
        alloc: Global,
        program: &'a Program,
        variable: &'a Variable,
    ) -> Result<Scope<'a>, AllocError>
        ensures { IfOk result (λ scope. scope ≡ body_scope program.now variable.now) }
    {
        let mut domains = Domains::new(alloc);
        domains.push(program.pdom())?;
        domains.push(&variable.domain)?;
        Ok(Scope {
            domains,
            reductions: Domains::new(alloc),
            width: variable.domain.width(),
        })
    }

    pub fn copy(&self, alloc: Global) -> Result<Scope<'a>, AllocError>
        ensures { IfOk result (λ scope. scope ≡ self.now) }
    {
        let domains = self.domains.copy(alloc)?;
        let reductions = self.reductions.copy(alloc)?;
        Ok(Scope {
            domains,
            reductions,
            width: self.width,
        })
    }

    /// What is in force in the body of a branch.
    pub fn under_branch(&self, alloc: Global, domain: &'a Domain) -> Result<Scope<'a>, AllocError>
        ensures { IfOk result (λ scope. scope ≡ under_branch self.now domain.now) }
    {
        let mut scope = self.copy(alloc)?;
        scope.domains.push(domain)?;
        Ok(scope)
    }

    /// What is in force in the body of a reduction.
    pub fn under_reduction(
        &self,
        alloc: Global,
        domain: &'a Domain,
    ) -> Result<Scope<'a>, AllocError>
        ensures { IfOk result (λ scope. scope ≡ under_reduction self.now domain.now) }
    {
        let mut scope = self.copy(alloc)?;
        scope.domains.push(domain)?;
        scope.reductions.push(domain)?;
        scope.width = domain.width();
        Ok(scope)
    }
}
