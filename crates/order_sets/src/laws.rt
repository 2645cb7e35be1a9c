//! Laws of the definitions.

ghost use Rattle.order_sets.specs.Laws.{OrderIsMeant};

/// Each formula of the dependences is true at a point exactly where the read there is too early.
pub fn order_is_meant()
    ensures { OrderIsMeant }
{}
