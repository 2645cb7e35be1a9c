//! The parts of a mapping, each set in the place of what it was before.
//!
//! A mapping is copied, changed, and then handed out whole or let go.

ghost use Rattle.std.specs.Prelude.{IfOk};
ghost use Rattle.az_ast.specs.System.{System};
ghost use Rattle.mapping_commands.specs.Parts.{kinds_set, time_set, storage_set, order_set};
ghost use Rattle.session_state.specs.Steps.{TakesAlone};
ghost use Rattle.target_map.specs.Settings.{Fits};

use crate::maps::meant;
use crate::names::{variable, variables};
use crate::numbers::{factors_of, kinds_of};
use crate::stops::{copied, refused, stop_of};
use az_ast::{Program, Reason};
use az_lin::Name;
use command_script::{KindText, MapText};
use session_state::{Stop, name};
use std::alloc::Global;
use target_map::Mapping;

pub(crate) fn with_kinds(
    alloc: Global,
    mapping: &Mapping,
    kinds: &[KindText],
) -> Result<Mapping, Stop>
    ensures answer { TakesAlone (kinds_set mapping.now kinds.now) result }
    ensures fits { (p : System) → Fits p mapping.now → IfOk result (Fits p) }
{
    let kinds = kinds_of(alloc, kinds)?;
    let mut mapping = copied(alloc, mapping)?;
    match mapping.set_kinds(alloc, kinds.as_slice()) {
        Ok(()) => Ok(mapping),
        Err(fault) => Err(stop_of(fault)),
    }
}

pub(crate) fn with_time(
    alloc: Global,
    program: &Program,
    mapping: &Mapping,
    name: &str,
    map: &MapText,
) -> Result<Mapping, Stop>
    requires { Fits program.now mapping.now }
    ensures answer { TakesAlone (time_set program.now mapping.now name.now map.now) result }
    ensures fits { IfOk result (Fits program.now) }
{
    let variable = variable(alloc, program, name)?;
    let meant = meant(alloc, map, program.params())?;
    let mut mapping = copied(alloc, mapping)?;
    match mapping.set_space_time(alloc, program, variable, meant.map) {
        Ok(()) if meant.fits => Ok(mapping),
        Ok(()) => Err(refused(Reason::Entry)),
        Err(fault) => Err(stop_of(fault)),
    }
}

pub(crate) fn with_storage(
    alloc: Global,
    program: &Program,
    mapping: &Mapping,
    variable: &str,
    space: &str,
    map: &MapText,
    factors: &[i128],
) -> Result<Mapping, Stop>
    requires { Fits program.now mapping.now }
    ensures answer { TakesAlone (storage_set program.now mapping.now variable.now space.now map.now factors.now) result }
    ensures fits { IfOk result (Fits program.now) }
{
    let variable = self::variable(alloc, program, variable)?;
    let meant = meant(alloc, map, program.params())?;
    let factors = factors_of(alloc, factors)?;
    let space = name(alloc, space)?;
    let mut mapping = copied(alloc, mapping)?;
    match mapping.set_memory(
        alloc,
        program,
        variable,
        space,
        meant.map,
        factors.as_slice(),
    ) {
        Ok(()) if meant.fits => Ok(mapping),
        Ok(()) => Err(refused(Reason::Entry)),
        Err(fault) => Err(stop_of(fault)),
    }
}

pub(crate) fn with_order(
    alloc: Global,
    program: &Program,
    mapping: &Mapping,
    names: &[Name],
) -> Result<Mapping, Stop>
    requires { Fits program.now mapping.now }
    ensures answer { TakesAlone (order_set program.now mapping.now names.now) result }
    ensures fits { IfOk result (Fits program.now) }
{
    let numbers = variables(alloc, program, names)?;
    let mut mapping = copied(alloc, mapping)?;
    match mapping.set_order(alloc, program, numbers.as_slice()) {
        Ok(()) => Ok(mapping),
        Err(fault) => Err(stop_of(fault)),
    }
}
