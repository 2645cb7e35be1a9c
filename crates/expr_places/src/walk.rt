//! The walk over an equation in pre-order.

ghost use Rattle.std.specs.Prelude.{◌≡◌, ◌↔◌, [], ◌∷◌, ◌++◌, map, All, Contains, IfOk, OnOk};
ghost use Rattle.az_ast.specs.Certified.{IsSoundEquation};
ghost use Rattle.az_ast.specs.Term.{term};
ghost use Rattle.expr_places.specs.Lent.{part_of, place_of};
ghost use Rattle.expr_places.specs.Places.{places, places_of};
ghost use Rattle.expr_places.specs.Soundness.{IsSoundAt};

use crate::{Part, Place, Scope};
use az_ast::{Equation, Expr, Program};
use std::alloc::{AllocError, Global};

/// The places of an equation of the program, in pre-order.
pub fn places<'a>(
    alloc: Global,
    program: &'a Program,
    equation: &'a Equation,
) -> Result<Vec<Place<'a>>, AllocError>
    requires { Contains program.now.equations equation.now }
    ensures list { IfOk result (λ found. map place_of found.items ≡ places_of program.now equation.now) }
    ensures sound { IfOk result (λ found. IsSoundEquation program.now equation.now ↔ All (IsSoundAt program.now) (map place_of found.items)) }
{
    let variable = &program.variables()[equation.variable as usize];
    let scope = Scope::of_body(alloc, program, variable)?;
    let mut found = Vec::new(alloc);
    push_places(alloc, &mut found, &equation.body, &scope)?;
    Ok(found)
}

fn push_places<'a>(
    alloc: Global,
    found: &mut Vec<Place<'a>>,
    e: &'a Expr,
    scope: &Scope<'a>,
) -> Result<(), AllocError>
    ensures { OnOk result (map place_of found.new.items ≡ map place_of found.old.items ++ places (term e.now) scope.now) }
{
    match e {
        Expr::Const(_) | Expr::Index(_) => Ok(()),
        Expr::Access(variable, map) => push_place(
            alloc,
            found,
            Part::Access(*variable, map),
            scope,
        ),
        Expr::Neg(e) => push_places(alloc, found, e.get(), scope),
        Expr::Bin(_, a, b) => {
            push_places(alloc, found, a.get(), scope)?;
            push_places(alloc, found, b.get(), scope)
        }
        Expr::Cases(branches) => {
            let branches = branches.as_slice();
            push_place(alloc, found, Part::Case(branches), scope)?;
            for branch in branches {
                let inner = scope.under_branch(alloc, &branch.domain)?;
                push_places(alloc, found, &branch.body, &inner)?;
            }
            Ok(())
        }
        Expr::Reduce(_, extra, domain, e) => {
            push_place(alloc, found, Part::Reduction(*extra, domain), scope)?;
            let inner = scope.under_reduction(alloc, domain)?;
            push_places(alloc, found, e.get(), &inner)?;
            Ok(())
        }
    }
}

fn push_place<'a>(
    alloc: Global,
    found: &mut Vec<Place<'a>>,
    part: Part<'a>,
    scope: &Scope<'a>,
) -> Result<(), AllocError>
    ensures { OnOk result (map place_of found.new.items ≡ map place_of found.old.items ++ record { part = part_of part.entry; scope = scope.now } ∷ []) }
{
    let scope = scope.copy(alloc)?;
    found.push(Place { part, scope })?;
    Ok(())
}
