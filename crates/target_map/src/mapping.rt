//! Target mappings, and the calls that set their parts.

ghost use Rattle.std.specs.Prelude.{◌≡◌, ◌<◌, All, length, OnOk, OnErr, IfOk, IfErr, None};
ghost use Rattle.az_ast.specs.System.{System};
ghost use Rattle.target_map.specs.Refusals.{IsRefusal, kinds_refusal, time_refusal, storage_refusal, order_refusal};
ghost use Rattle.target_map.specs.Settings.{Fits, no_mapping, storage_in, with_kinds, with_time, with_storage, with_statements};
ghost use Rattle.target_map.specs.declared.fault.MapFault.TheVariants.{Memory};

use crate::by_variable::{ByVariable, copied_maps, copied_storages};
use crate::checks::{rules, variable_count};
use crate::kind::{are_in_order, are_sized};
use crate::refusals::{order_refusal, others_in, storage_refusal, time_refusal};
use crate::storage::copied;
use crate::{Kind, MapFault, Storage};
use az_ast::{Program, Reason};
use az_lin::{LinFault, List, Map, Name, TryCopy};
use std::alloc::Global;
use std::marker::Model;

/// The kinds of the dimensions of time, the space-time and memory maps of variables, and the
/// statements in order.
#[derive(Debug, Drop)]
pub struct Mapping {
    pub(crate) kinds: List<Kind>,
    pub(crate) times: ByVariable<Map>,
    pub(crate) storages: ByVariable<Storage>,
    pub(crate) statements: List<u32>,
}

impl Model for Mapping {
    ghost use Rattle.std.specs.Coded.{codes};
    ghost use Rattle.std.specs.FinMap as map;
    ghost use Rattle.target_map.specs.Settings.{TargetMapping, IsMapping};

    ghost Value = { TargetMapping };

    ghost coded = { Prim.hlevel (codes, map.code) };

    ghost view = { λ m. record { kinds = m.kinds; times = m.times; storages = m.storages; statements = m.statements } };

    ghost invariant = { λ m. IsMapping (record { kinds = m.kinds; times = m.times; storages = m.storages; statements = m.statements }) };
}

impl Mapping {
    /// Nothing is set.
    pub fn new(alloc: Global) -> Mapping
        ensures value { result ≡ no_mapping }
        ensures fits { (p : System) → Fits p result }
    {
        Mapping {
            kinds: List::new(alloc),
            times: ByVariable::new(alloc),
            storages: ByVariable::new(alloc),
            statements: List::new(alloc),
        }
    }

    /// Sets the kinds, and clears the space-time maps.
    pub fn set_kinds(&mut self, alloc: Global, kinds: &[Kind]) -> Result<(), MapFault>
        ensures ok { OnOk result ((kinds_refusal kinds.now ≡ None) × (self.new ≡ with_kinds self.old kinds.now)) }
        ensures cause { IfErr result (IsRefusal (kinds_refusal kinds.now)) }
        ensures kept { OnErr result (self.new ≡ self.old) }
        ensures fits { (p : System) → Fits p self.old → Fits p self.new }
    {
        if kinds.is_empty() || !are_in_order(kinds) {
            return Err(MapFault::Reason(Reason::Kinds));
        }
        if !are_sized(kinds) {
            return Err(MapFault::Reason(Reason::Size));
        }
        let items = Vec::from_slice(alloc, kinds)?;
        self.kinds = List::from_vec(items);
        self.times = ByVariable::new(alloc);
        Ok(())
    }

    /// Sets when the variable's instances are carried out: a row for each kind.
    pub fn set_space_time(
        &mut self,
        alloc: Global,
        program: &Program,
        variable: u32,
        map: Map,
    ) -> Result<(), MapFault>
        requires fits { Fits program.now self.old }
        requires declared { variable < length program.now.variables }
        ensures ok { OnOk result ((time_refusal program.now self.old.kinds variable map ≡ None) × (self.new ≡ with_time self.old variable map)) }
        ensures cause { IfErr result (IsRefusal (time_refusal program.now self.old.kinds variable map)) }
        ensures kept { OnErr result (self.new ≡ self.old) }
        ensures fits { Fits program.now self.new }
    {
        let refusal = time_refusal(alloc, program, self.kinds.as_slice(), variable, &map)?;
        if let Some(reason) = refusal {
            return Err(MapFault::Reason(reason));
        }
        self.times.set(variable, map)?;
        Ok(())
    }

    /// Sets where the variable's instances are kept: a factor for each row, 0 for none.
    pub fn set_memory(
        &mut self,
        alloc: Global,
        program: &Program,
        variable: u32,
        space: Name,
        map: Map,
        factors: &[u32],
    ) -> Result<(), MapFault>
        requires fits { Fits program.now self.old }
        requires declared { variable < length program.now.variables }
        ensures ok { OnOk result ((storage_refusal program.now self.old variable (storage_in space map factors.now) ≡ None)
            × (self.new ≡ with_storage self.old variable (storage_in space map factors.now))) }
        ensures cause { IfErr result (IsRefusal (storage_refusal program.now self.old variable (storage_in space map factors.now))) }
        ensures kept { OnErr result (self.new ≡ self.old) }
        ensures fits { Fits program.now self.new }
    {
        let factors = copied(alloc, factors)?;
        let storage = Storage {
            space,
            map,
            factors,
        };
        let count = variable_count(program);
        let other = others_in(&self.storages, &storage.space, variable, count);
        let refusal = storage_refusal(alloc, program, variable, &storage, other)?;
        if let Some(reason) = refusal {
            return Err(MapFault::Reason(reason));
        }
        self.storages.set(variable, storage)?;
        Ok(())
    }

    /// Gives the statements listed the numbers 1, 2 and so on, and all others 0.
    pub fn set_order(
        &mut self,
        alloc: Global,
        program: &Program,
        variables: &[u32],
    ) -> Result<(), MapFault>
        requires fits { Fits program.now self.old }
        requires declared { All (λ number. number < length program.now.variables) variables.now }
        ensures ok { OnOk result ((order_refusal program.now variables.now ≡ None) × (self.new ≡ with_statements self.old variables.now)) }
        ensures cause { IfErr result (IsRefusal (order_refusal program.now variables.now)) }
        ensures kept { OnErr result (self.new ≡ self.old) }
        ensures fits { Fits program.now self.new }
    {
        rules(program);
        let refusal = order_refusal(alloc, program, variables)?;
        if let Some(reason) = refusal {
            return Err(MapFault::Reason(reason));
        }
        let statements = copied(alloc, variables)?;
        self.statements = statements;
        Ok(())
    }
}

impl TryCopy for Mapping {
    fn copy(&self, alloc: Global) -> Result<Self, LinFault> {
        let kinds = self.kinds.copy(alloc)?;
        let times = copied_maps(alloc, &self.times)?;
        let storages = copied_storages(alloc, &self.storages)?;
        let statements = copied(alloc, self.statements.as_slice())?;
        Ok(Mapping {
            kinds,
            times,
            storages,
            statements,
        })
    }
}

impl Mapping {
    /// An equal mapping in memory of its own.
    pub fn copy(&self, alloc: Global) -> Result<Mapping, MapFault>
        ensures ok { IfOk result (λ copied. copied ≡ self.now) }
        ensures cause { IfErr result (λ fault. fault ≡ Memory) }
    {
        match TryCopy::copy(self, alloc) {
            Ok(copied) => Ok(copied),
            Err(LinFault::Memory) => Err(MapFault::Memory),
            Err(_) => unreachable!(),
        }
    }
}
