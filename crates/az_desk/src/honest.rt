//! A desk in memory that never fails.

ghost use Rattle.std.specs.Prelude.{◌≡◌, [], Some, None, position, IfOk, IfErr, OnOk, OnErr};
ghost use Rattle.std.specs.Str.{bytes_eq};
ghost use Rattle.std.specs.Option.{option_copied};
ghost use Rattle.az_desk.specs.Files.{file_of, with_file};
ghost use Rattle.az_desk.specs.declared.fault.DeskFault.TheVariants.{Memory};

use crate::{Desk, DeskFault, MOST_BYTES};
use az_lin::{List, Name};
use std::alloc::Global;
use std::marker::Model;

/// Files and said bytes in memory. A file that isn't there is read as an empty one.
#[derive(Debug, Drop)]
pub struct HonestDesk {
    files: Vec<(Name, List<u8>)>,
    said: Vec<u8>,
}

impl Model for HonestDesk {
    ghost use Rattle.az_desk.specs.Files.{Contents};

    ghost Value = { Contents };

    ghost view = { λ desk. record { files = desk.files.items; said = desk.said.items } };
}

/// The place of the first file of that name.
fn place_of(files: &[(Name, List<u8>)], name: &str) -> Option<usize>
    ensures { result ≡ position (λ file. bytes_eq file.0 name.now) files.now }
{
    files.iter().position(|file| file.0.as_str() == name)
}

fn copy_of(alloc: Global, bytes: &[u8]) -> Result<List<u8>, DeskFault>
    ensures ok { IfOk result (λ copied. copied ≡ bytes.now) }
    ensures cause { IfErr result (λ fault. fault ≡ Memory) }
{
    Ok(List::from_vec(Vec::from_slice(alloc, bytes)?))
}

pub(crate) fn name_of(alloc: Global, name: &str) -> Result<Name, DeskFault>
    ensures ok { IfOk result (λ made. made ≡ name.now) }
    ensures cause { IfErr result (λ fault. fault ≡ Memory) }
{
    match Name::from_str(alloc, name) {
        Ok(name) => Ok(name),
        Err(_) => Err(DeskFault::Memory),
    }
}

/// Puts the bytes in the place of those under the name, or at the end.
#[tactic(auto, using(crate::proofs::FileLemmas::with_file_at_place, crate::proofs::FileLemmas::with_file_at_end))]
fn put(files: &mut Vec<(Name, List<u8>)>, name: Name, bytes: List<u8>) -> Result<(), DeskFault>
    ensures ok { OnOk result (files.new.items ≡ with_file name bytes files.old.items) }
    ensures err { OnErr result (files.new.items ≡ files.old.items) }
    ensures cause { IfErr result (λ fault. fault ≡ Memory) }
{
    match place_of(files.as_slice(), name.as_str()) {
        Some(place) => files[place] = (name, bytes),
        None => files.push((name, bytes))?,
    }
    Ok(())
}

impl HonestDesk {
    /// A desk with these files, at which nothing was said yet.
    pub fn new(alloc: Global, files: List<(Name, List<u8>)>) -> HonestDesk
        ensures { result ≡ record { files = files; said = [] } }
    {
        HonestDesk {
            files: files.into_vec(),
            said: Vec::new(alloc),
        }
    }

    /// The bytes under the name, or `None` where there is no such file.
    pub fn file(&self, name: &str) -> Option<&[u8]>
        ensures { option_copied result ≡ file_of self.now.files name.now }
    {
        match place_of(self.files.as_slice(), name) {
            Some(place) => Some(self.files[place].1.as_slice()),
            None => None,
        }
    }

    pub fn files(&self) -> &[(Name, List<u8>)]
        ensures { result.now ≡ self.now.files }
    {
        self.files.as_slice()
    }

    pub fn said(&self) -> &[u8]
        ensures { result.now ≡ self.now.said }
    {
        self.said.as_slice()
    }
}

impl Desk for HonestDesk {
    ghost seen = { λ desk. record { files = Some desk.files; said = Some desk.said; last = Some None; faults = 0 } };

    fn read(&mut self, alloc: Global, name: &str) -> Result<List<u8>, DeskFault> {
        let bytes = self.file(name).unwrap_or(&[]);
        if bytes.len() > MOST_BYTES {
            return Err(DeskFault::TooLong);
        }
        copy_of(alloc, bytes)
    }

    fn write(&mut self, alloc: Global, name: &str, bytes: &[u8]) -> Result<(), DeskFault> {
        let name = name_of(alloc, name)?;
        let bytes = copy_of(alloc, bytes)?;
        put(&mut self.files, name, bytes)
    }

    fn say(&mut self, _alloc: Global, bytes: &[u8]) -> Result<(), DeskFault> {
        self.said.extend_from_slice(bytes)?;
        Ok(())
    }
}
