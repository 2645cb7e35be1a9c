//! Laws of the definitions.

ghost use Rattle.tile_waves.specs.Laws.{BeforeIsEarlier};

/// What is before another instance stands in an earlier wave, or earlier in the same tile.
pub fn before_is_earlier()
    ensures { BeforeIsEarlier }
{}
