//! What is set for variables, by their numbers.

ghost use Rattle.std.specs.Prelude.{◌≡◌, OnOk, OnErr, IfOk, IfErr};
ghost use Rattle.std.specs.Option.{option_copied};
ghost use Rattle.std.specs.FinMap as map;
ghost use Rattle.az_lin.specs.declared.fault.LinFault.TheVariants.{Memory};

use crate::Storage;
use az_lin::{LinFault, Map, TryCopy};
use std::alloc::{AllocError, Global};
use std::collections::BTreeMap;
use std::marker::Model;

#[derive(Debug, Drop)]
pub(crate) struct ByVariable<T> {
    settings: BTreeMap<u32, T>,
}

impl<T> Model for ByVariable<T> {
    ghost use Rattle.std.specs.Coded.{coded_ℕ};
    ghost use Rattle.std.specs.FinMap as map;
    ghost use Rattle.std.specs.Ordering.{nat_cmp};

    ghost Value = { map.FinMap nat_cmp T };

    ghost coded = { map.code coded_ℕ T.code };

    ghost view = { λ m. map.from_entries m.settings.entries };
}

impl<T> ByVariable<T> {
    pub(crate) fn new(alloc: Global) -> ByVariable<T>
        ensures { result ≡ map.empty }
    {
        ByVariable {
            settings: BTreeMap::new(alloc),
        }
    }

    pub(crate) fn get(&self, variable: u32) -> Option<&T>
        ensures { option_copied result ≡ map.get self.now variable }
    {
        self.settings.get(&variable)
    }
}

impl<T: Drop> ByVariable<T> {
    /// Sets the value for the variable, in place of an earlier one.
    pub(crate) fn set(&mut self, variable: u32, value: T) -> Result<(), AllocError>
        ensures ok { OnOk result (self.new ≡ map.insert self.old variable value) }
        ensures err { OnErr result (self.new ≡ self.old) }
    {
        self.settings.insert(variable, value)?;
        Ok(())
    }
}

/// Equal values in memory of their own.
pub(crate) fn copied_maps(
    alloc: Global,
    values: &ByVariable<Map>,
) -> Result<ByVariable<Map>, LinFault>
    ensures ok { IfOk result (λ copied. copied ≡ values.now) }
    ensures cause { IfErr result (λ fault. fault ≡ Memory) }
{
    let mut copies = BTreeMap::new(alloc);
    'settings: for (variable, value) in values.settings.iter().rev() {
        let copied = value.copy(alloc)?;
        copies.insert(*variable, copied)?;
    }
    Ok(ByVariable { settings: copies })
}

/// Equal values in memory of their own.
pub(crate) fn copied_storages(
    alloc: Global,
    values: &ByVariable<Storage>,
) -> Result<ByVariable<Storage>, LinFault>
    ensures ok { IfOk result (λ copied. copied ≡ values.now) }
    ensures cause { IfErr result (λ fault. fault ≡ Memory) }
{
    let mut copies = BTreeMap::new(alloc);
    'settings: for (variable, value) in values.settings.iter().rev() {
        let copied = value.copy(alloc)?;
        copies.insert(*variable, copied)?;
    }
    Ok(ByVariable { settings: copies })
}
