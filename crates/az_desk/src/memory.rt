//! A desk in memory that fails at listed calls.

ghost use Rattle.std.specs.Prelude.{◌≡◌, [], None, Err, take};
ghost use Rattle.std.specs.Option.{option_copied};
ghost use Rattle.az_desk.specs.declared.call.Call.TheVariants.{Write, Say};
ghost use Rattle.az_desk.specs.declared.fault.DeskFault.TheVariants.{Failed};
ghost use Rattle.az_desk.specs.Desk.{Reads, Writes, Says, next_count};
ghost use Rattle.az_desk.specs.Failing.{seen_of, failure_of, told_failure, ReadsUnlessListed, BringsUnlessListed, contents_with_file, contents_with_said};

use crate::honest::name_of;
use crate::{Call, Desk, DeskFault, HonestDesk, fault};
use az_lin::{List, Name};
use std::alloc::Global;
use std::marker::Model;

/// A failure of one call, which keeps this many of the bytes that it was given, or all if they are fewer.
#[derive(Debug, Clone, Copy, PartialEq, Eq)]
pub struct Failure {
    /// The call's number from 0, over reads, writes and says together.
    pub call: u64,
    pub kept: usize,
}

/// Files and said bytes in memory, behind failures at the listed calls. To read a file that isn't there is
/// a failure too.
#[derive(Debug, Drop)]
pub struct MemoryDesk {
    desk: HonestDesk,
    failures: List<Failure>,
    calls: u64,
    last: Option<Call>,
    faults: u64,
}

impl Model for MemoryDesk {
    ghost use Rattle.az_desk.specs.Failing.{FailingDesk};

    ghost Value = { FailingDesk };

    ghost view = { λ it. record { contents = it.desk; failures = it.failures; calls = it.calls; last = it.last; faults = it.faults } };
}

/// The bytes that a failing call keeps.
fn front(bytes: &[u8], kept: usize) -> &[u8]
    ensures { result.now ≡ take kept bytes.now }
{
    &bytes[..kept.min(bytes.len())]
}

impl MemoryDesk {
    /// A desk with these files, at which no call was made yet.
    pub fn new(alloc: Global, files: List<(Name, List<u8>)>, failures: List<Failure>) -> MemoryDesk
        ensures { result ≡ record { contents = record { files = files; said = [] }; failures = failures; calls = 0; last = None; faults = 0 } }
    {
        MemoryDesk {
            desk: HonestDesk::new(alloc, files),
            failures,
            calls: 0,
            last: None,
            faults: 0,
        }
    }

    /// The files and the bytes said so far.
    pub fn contents(&self) -> &HonestDesk
        ensures { result.now ≡ self.now.contents }
    {
        &self.desk
    }

    /// The number of the next call. It stays at 2^64 - 1.
    pub fn calls(&self) -> u64
        ensures { result ≡ self.now.calls }
    {
        self.calls
    }

    /// The call that failed last.
    pub fn last(&self) -> Option<&Call>
        ensures { option_copied result ≡ self.now.last }
    {
        self.last.as_ref()
    }

    /// How many calls failed. It stays at 2^64 - 1.
    pub fn faults(&self) -> u64
        ensures { result ≡ self.now.faults }
    {
        self.faults
    }

    /// Counts the call, and answers how many bytes it keeps if it is to fail.
    fn begin(&mut self) -> Option<usize>
        ensures answer { result ≡ failure_of self.old }
        ensures counted { self.new ≡ record self.old { calls = next_count self.old.calls } }
    {
        let call = self.calls;
        self.calls = call.saturating_add(1);
        let listed = self
            .failures
            .as_slice()
            .iter()
            .find(|failure| failure.call == call);
        listed.map(|failure| failure.kept)
    }

    /// Counts a fault of this call and answers it.
    fn fail<T>(&mut self, call: Call) -> Result<T, DeskFault>
        ensures answer { result ≡ Err Failed }
        ensures told { self.new ≡ told_failure call self.old }
    {
        self.last = Some(call);
        fault::fail(&mut self.faults)
    }
}

impl Desk for MemoryDesk {
    ghost seen = { seen_of };

    fn read(&mut self, alloc: Global, name: &str) -> Result<List<u8>, DeskFault>
        ensures answer { Reads name.now (seen_of self.old) result (seen_of self.new) }
        ensures listed { ReadsUnlessListed self.old name.now result self.new }
    {
        if self.begin().is_some() || self.desk.file(name).is_none() {
            let call = Call::Read(name_of(alloc, name)?);
            return self.fail(call);
        }
        self.desk.read(alloc, name)
    }

    fn write(&mut self, alloc: Global, name: &str, bytes: &[u8]) -> Result<(), DeskFault>
        ensures answer { Writes name.now bytes.now (seen_of self.old) result (seen_of self.new) }
        ensures listed { BringsUnlessListed (Write name.now) self.old (contents_with_file self.old.contents name.now) bytes.now result self.new }
    {
        let Some(kept) = self.begin() else {
            return self.desk.write(alloc, name, bytes);
        };
        let call = Call::Write(name_of(alloc, name)?);
        self.desk.write(alloc, name, front(bytes, kept))?;
        self.fail(call)
    }

    fn say(&mut self, alloc: Global, bytes: &[u8]) -> Result<(), DeskFault>
        ensures answer { Says bytes.now (seen_of self.old) result (seen_of self.new) }
        ensures listed { BringsUnlessListed Say self.old (contents_with_said self.old.contents) bytes.now result self.new }
    {
        let Some(kept) = self.begin() else {
            return self.desk.say(alloc, bytes);
        };
        self.desk.say(alloc, front(bytes, kept))?;
        self.fail(Call::Say)
    }
}
