//! What may happen while a plan is carried out.

/// One atomic action of a worker, by its number, or the turn to the next wave.
#[derive(Debug, Clone, Copy, PartialEq, Eq)]
pub enum Event {
    /// The worker asks for a tile of the wave.
    Claim(u32),
    /// The worker reads the next word that its instance needs.
    Load(u32),
    /// The worker writes its instance's value, and goes on to the next one.
    Store(u32),
    /// The next wave begins.
    Next,
}
