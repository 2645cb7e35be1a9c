//! Laws of the definitions.

ghost use Rattle.life_sets.specs.Laws.{CertifiedByFormulas, LifeIsMeant};

/// Each formula of the lifetimes is true at a point exactly where a value is stored over there.
pub fn life_is_meant()
    ensures { LifeIsMeant }
{}

/// A mapping is certified exactly if all formulas are false at all whole points.
pub fn certified_by_formulas()
    ensures { CertifiedByFormulas }
{}
