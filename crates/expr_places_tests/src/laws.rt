//! A program that is certified by hand, place by place.

ghost use Rattle.az_ast.proofs.Prefix.{prefix};
ghost use Rattle.az_ast.specs.Certified.{IsCertified};

/// The program of prefix sums is certified.
pub fn prefix_is_certified()
    ensures { IsCertified prefix }
{}
