//! Laws of the definitions.

ghost use Rattle.target_map.specs.Examples.{PairsAreTold};
ghost use Rattle.target_map.specs.Laws.{CertifiedGivesOrder};

/// Pairs of instances that were decided by hand are before one another as the definition says.
pub fn pairs_are_told()
    ensures { PairsAreTold }
{}

/// Under a certified mapping each read comes after what it reads, and no other instance that may be
/// kept in the same cell comes between.
pub fn certified_gives_order()
    ensures { CertifiedGivesOrder }
{}
