//! Laws of the definitions.

ghost use Rattle.expr_places.specs.Laws.{BranchesAreOne, BalancedIsFinite, CertifiedIsSoundFrom};

/// Exactly one branch holds a point if and only if no two overlap there and it is in no gap.
pub fn branches_are_one()
    ensures { BranchesAreOne }
{}

/// A domain in which no direction goes on for ever is finite.
pub fn balanced_is_finite()
    ensures { BalancedIsFinite }
{}

/// At each point of a variable's domain the equation of a certified program is sound wherever it is
/// evaluated.
pub fn certified_is_sound_from()
    ensures { CertifiedIsSoundFrom }
{}
