//! The calls that read a mapping.

ghost use Rattle.std.specs.Prelude.{◌≡◌, ◌==◌, ◌<◌, length, option_map, position, IfOk, IfErr, IfSome, None};
ghost use Rattle.std.specs.FinMap.{get};
ghost use Rattle.std.specs.Option.{option_copied};
ghost use Rattle.target_map.specs.Refusals.{IsRefusal, lacks_map, unmapped_from};
ghost use Rattle.target_map.specs.Settings.{IsMapping, Fits, IsComplete, order_number};

use crate::checks::{copied_name, is_input};
use crate::{Kind, MapFault, Mapping, Storage};
use az_ast::{Program, Reason, Variable};
use az_lin::{Map, Name};
use std::alloc::Global;

/// The first place of the variable in the list.
fn place_of(statements: &[u32], variable: u32) -> Option<usize>
    ensures value { result ≡ position (λ number. number == variable) statements.now }
    ensures within { IfSome result (λ place. place < length statements.now) }
{
    statements.iter().position(|number| *number == variable)
}

impl Mapping {
    pub fn kinds(&self) -> &[Kind]
        ensures value { result.now ≡ self.now.kinds }
        ensures mapping { IsMapping self.now }
    {
        self.kinds.as_slice()
    }

    /// The rows that give the coordinates of time, one for each kind.
    pub fn space_time(&self, variable: u32) -> Option<&Map>
        ensures { option_copied result ≡ get self.now.times variable }
    {
        self.times.get(variable)
    }

    pub fn storage(&self, variable: u32) -> Option<&Storage>
        ensures { option_copied result ≡ get self.now.storages variable }
    {
        self.storages.get(variable)
    }

    pub fn space(&self, variable: u32) -> Option<&Name>
        ensures { option_copied result ≡ option_map (λ storage. storage.space) (get self.now.storages variable) }
    {
        match self.storages.get(variable) {
            Some(storage) => Some(&storage.space),
            None => None,
        }
    }

    /// The rows that give the coordinates of a cell.
    pub fn memory(&self, variable: u32) -> Option<&Map>
        ensures { option_copied result ≡ option_map (λ storage. storage.map) (get self.now.storages variable) }
    {
        match self.storages.get(variable) {
            Some(storage) => Some(&storage.map),
            None => None,
        }
    }

    /// A factor for each coordinate of a cell, 0 for none.
    pub fn factors(&self, variable: u32) -> Option<&[u32]>
        ensures { option_copied result ≡ option_map (λ storage. storage.factors) (get self.now.storages variable) }
    {
        match self.storages.get(variable) {
            Some(storage) => Some(storage.factors.as_slice()),
            None => None,
        }
    }

    /// The number of the variable's statement, and 0 for one that was not listed.
    pub fn order(&self, variable: u32) -> u32
        ensures { result ≡ order_number self.now.statements variable }
    {
        match place_of(self.statements.as_slice(), variable) {
            Some(place) => place as u32 + 1,
            None => 0,
        }
    }

    /// Whether it is an output or local without both maps.
    fn lacks_map(&self, number: u32, variable: &Variable) -> bool
        ensures { result ≡ lacks_map self.now number variable.now }
    {
        !is_input(variable.role)
            && (self.times.get(number).is_none() || self.storages.get(number).is_none())
    }

    /// Refused with the first output or local that lacks a map.
    pub fn complete(&self, alloc: Global, program: &Program) -> Result<(), MapFault>
        requires { Fits program.now self.now }
        ensures ok { IfOk result (λ _. IsComplete program.now self.now) }
        ensures none { IfOk result (λ _. unmapped_from self.now 0 program.now.variables ≡ None) }
        ensures cause { IfErr result (IsRefusal (unmapped_from self.now 0 program.now.variables)) }
    {
        let variables = program.variables();
        'variables: for place in 0..variables.len() {
            let variable = &variables[place];
            if self.lacks_map(place as u32, variable) {
                let name = copied_name(alloc, &variable.name)?;
                return Err(MapFault::Reason(Reason::Unmapped(name)));
            }
        }
        Ok(())
    }
}
