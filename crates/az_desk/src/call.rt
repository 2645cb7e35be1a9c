//! What a desk may be asked.

use az_lin::Name;

/// A call on a desk, as it tells which one failed.
#[derive(Debug, Drop)]
pub enum Call {
    /// The file of that name was to be read.
    Read(Name),
    /// The file of that name was to be written.
    Write(Name),
    /// Bytes were to be said.
    Say,
}
