//! The desk: what a program reads, writes and says, and which of that failed.

ghost use Rattle.az_desk.specs.Desk.{Seen, Reads, Writes, Says};

use crate::DeskFault;
use az_lin::List;
use std::alloc::Global;

/// The most bytes that a file may have to be read.
pub const MOST_BYTES: usize = 1 << 24;

/// A place to read files from, to write files to and to say bytes at.
///
/// Every call takes the allocator, since a desk in memory grows by what is written and said. After
/// `Memory` the desk shows what it showed before.
pub trait Desk {
    /// What the desk shows: its files in the order in which a name is looked for, the bytes said so far,
    /// the call that failed last, and how many failed. The count stays at 2^64 - 1.
    ghost seen: { Self → Seen };

    /// The whole file of that name. What an absent file has is `Failed` or no bytes, as the desk decides.
    fn read(&mut self, alloc: Global, name: &str) -> Result<List<u8>, DeskFault>
        ensures answer { Reads name.now (seen self.old) result (seen self.new) };

    /// Puts the bytes under the name, in the place of those that stand there.
    fn write(&mut self, alloc: Global, name: &str, bytes: &[u8]) -> Result<(), DeskFault>
        ensures answer { Writes name.now bytes.now (seen self.old) result (seen self.new) };

    /// Appends the bytes to what was said.
    fn say(&mut self, alloc: Global, bytes: &[u8]) -> Result<(), DeskFault>
        ensures answer { Says bytes.now (seen self.old) result (seen self.new) };
}
