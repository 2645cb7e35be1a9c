//! Equations changed one by one.

ghost use Rattle.std.specs.Prelude.{◌≡◌, ◌++◌, [], map, filter_map, Option, All, OnOk};
ghost use Rattle.std.specs.List.{cons_option};
ghost use Rattle.rewriting.specs.Definitions.{Definition, definition_of};
ghost use Rattle.rewriting.specs.Equations.{IsEquation, AreEquations};

use az_ast::Equation;
use az_lin::{LinFault, List};
use std::alloc::{AllocError, Global};

/// What becomes of each equation: `gives` what it then is, or nothing where it is left out, of an equation that
/// it `wants`, and `Entry` exactly where that doesn't fit.
pub trait EquationChange {
    ghost gives: { Self → Definition → Option Definition };

    ghost wants: { Self → Definition → Type 0 };

    ghost fits: { Self → Definition → Type 0 };

    fn at(&self, alloc: Global, equation: &Equation) -> Result<Option<Equation>, LinFault>
        requires { wants self.now (definition_of equation.now) }
        ensures { IsEquation (gives self.now (definition_of equation.now)) (fits self.now (definition_of equation.now)) result };
}

fn push_made(changed: &mut Vec<Equation>, made: Option<Equation>) -> Result<(), AllocError>
    ensures { OnOk result (changed.new.items ≡ changed.old.items ++ cons_option made []) }
{
    match made {
        Some(equation) => {
            changed.push(equation)?;
            Ok(())
        }
        None => Ok(()),
    }
}

/// The equations after the change, in their order.
pub fn changed_equations<C: EquationChange>(
    alloc: Global,
    change: &C,
    equations: &[Equation],
) -> Result<List<Equation>, LinFault>
    requires { All (λ equation. C.wants change.now (definition_of equation)) equations.now }
    ensures { AreEquations (filter_map (C.gives change.now) (map definition_of equations.now)) (All (λ equation. C.fits change.now (definition_of equation)) equations.now) result }
{
    let mut changed = Vec::new(alloc);
    for equation in equations {
        let made = change.at(alloc, equation)?;
        push_made(&mut changed, made)?;
    }
    Ok(List::from_vec(changed))
}
