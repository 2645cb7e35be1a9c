//! The desk over the runtime's files and its standard output.

ghost use Rattle.std.specs.Prelude.{◌≡◌, None};

use crate::fault::fail;
use crate::{Desk, DeskFault, MOST_BYTES};
use az_lin::List;
use std::alloc::Global;
use std::fs::File;
use std::io::{ErrorKind, Read};
use std::marker::Model;
use std::rt::Files;
use std::{fs, io};

/// Real files and the real standard output, with a count of their failures. Nothing is promised of what
/// they hold: contracts see the count alone.
#[derive(Drop)]
pub struct HostDesk<'a, R: Files + Print + AllocGlobal> {
    rt: &'a R,
    faults: u64,
}

impl<'a, R: Files + Print + AllocGlobal> Model for HostDesk<'a, R> {
    ghost use Rattle.std.specs.Prelude.{ℕ};

    ghost Value = { ℕ };

    ghost view = { λ desk. desk.faults };
}

/// A file's bytes, of which at most one more than a read may give are taken.
fn front_of_file<R: Files>(rt: &R, alloc: Global, name: &str) -> io::Result<Vec<u8>> {
    let mut bytes = Vec::new(alloc);
    let mut front = File::open(rt, name)?.take(MOST_BYTES as u64 + 1);
    front.read_to_end(&mut bytes)?;
    Ok(bytes)
}

impl<'a, R: Files + Print + AllocGlobal> HostDesk<'a, R> {
    /// A desk at which nothing has failed yet.
    pub fn new(rt: &'a R) -> HostDesk<'a, R>
        ensures { result ≡ 0 }
    {
        HostDesk { rt, faults: 0 }
    }
}

impl<'a, R: Files + Print + AllocGlobal> Desk for HostDesk<'a, R> {
    ghost seen = { λ desk. record { files = None; said = None; last = None; faults = desk } };

    fn read(&mut self, alloc: Global, name: &str) -> Result<List<u8>, DeskFault> {
        match front_of_file(self.rt, alloc, name) {
            Ok(bytes) if bytes.len() > MOST_BYTES => Err(DeskFault::TooLong),
            Ok(bytes) => Ok(List::from_vec(bytes)),
            Err(error) if error.kind() == ErrorKind::OutOfMemory => Err(DeskFault::Memory),
            Err(_) => fail(&mut self.faults),
        }
    }

    fn write(&mut self, _alloc: Global, name: &str, bytes: &[u8]) -> Result<(), DeskFault> {
        match fs::write(self.rt, name, bytes) {
            Ok(()) => Ok(()),
            Err(_) => fail(&mut self.faults),
        }
    }

    fn say(&mut self, _alloc: Global, bytes: &[u8]) -> Result<(), DeskFault> {
        match self.rt.write_all(bytes) {
            Ok(()) => Ok(()),
            Err(_) => fail(&mut self.faults),
        }
    }
}
