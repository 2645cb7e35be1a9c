//! Places in a plan.

/// Where an instance stands: its wave, its tile in the wave, and its number in the tile.
#[derive(Debug, Clone, Copy, PartialEq, Eq)]
pub struct Place {
    pub wave: u32,
    pub tile: u32,
    pub number: u32,
}
