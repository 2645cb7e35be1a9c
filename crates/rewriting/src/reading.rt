//! Accesses looked for in an expression.

ghost use Rattle.std.specs.Prelude.{◌≡◌};
ghost use Rattle.az_ast.specs.Term.{term};
ghost use Rattle.rewriting.specs.Reads.{is_access_to, reads};

use az_ast::{Expr, PartTest, some_part};

#[derive(Drop)]
struct AccessTo {
    variable: u32,
}

impl PartTest for AccessTo {
    ghost wants = { λ test part. is_access_to test.variable part };

    fn is_wanted(&self, part: &Expr) -> bool {
        match part {
            Expr::Access(x, _) => *x == self.variable,
            _ => false,
        }
    }
}

/// Whether the expression has an access to the variable.
pub fn reads(variable: u32, e: &Expr) -> bool
    ensures { result ≡ reads variable (term e.now) }
{
    some_part(&AccessTo { variable }, e)
}
