//! Why a setting call is refused.

ghost use Rattle.std.specs.Prelude.{◌≡◌, ◌<◌, All, length, IfOk, IfErr};
ghost use Rattle.std.specs.Option.{option_copied};
ghost use Rattle.target_map.specs.Refusals.{other_in, others_in, has_other_rows, has_other_factors, time_refusal, storage_refusal_beside, order_refusal};
ghost use Rattle.target_map.specs.declared.fault.MapFault.TheVariants.{Memory};

use crate::by_variable::ByVariable;
use crate::checks::{first_unwritten, is_unwritten, name_of, repeated, some_great, width_of};
use crate::{Kind, MapFault, Storage};
use az_ast::{Program, Reason};
use az_lin::{Map, Name};
use std::alloc::Global;

pub(crate) fn time_refusal(
    alloc: Global,
    program: &Program,
    kinds: &[Kind],
    variable: u32,
    map: &Map,
) -> Result<Option<Reason>, MapFault>
    requires { variable < length program.now.variables }
    ensures ok { IfOk result (λ refusal. refusal ≡ time_refusal program.now kinds.now variable map.now) }
    ensures cause { IfErr result (λ fault. fault ≡ Memory) }
{
    if is_unwritten(program, variable) {
        let name = name_of(alloc, program, variable)?;
        return Ok(Some(Reason::Interface(name)));
    }
    if kinds.is_empty() {
        return Ok(Some(Reason::Kinds));
    }
    if map.width() != width_of(program, variable) || map.rows().len() != kinds.len() {
        return Ok(Some(Reason::Width));
    }
    Ok(None)
}

/// The storage of the variable with the number, if it is in the space and the variable is another.
fn other_in<'a>(
    storages: &'a ByVariable<Storage>,
    space: &Name,
    variable: u32,
    number: u32,
) -> Option<&'a Storage>
    ensures { option_copied result ≡ other_in storages.now space.now variable number }
{
    if number == variable {
        return None;
    }
    match storages.get(number) {
        Some(storage) if storage.space.as_str() == space.as_str() => Some(storage),
        _ => None,
    }
}

/// The storage of another variable in the space.
pub(crate) fn others_in<'a>(
    storages: &'a ByVariable<Storage>,
    space: &Name,
    variable: u32,
    count: u32,
) -> Option<&'a Storage>
    ensures { option_copied result ≡ others_in storages.now space.now variable count }
{
    let mut found = None;
    'numbers: for number in 0..count {
        if let Some(other) = other_in(storages, space, variable, number) {
            found = Some(other);
        }
    }
    found
}

fn has_other_rows(storage: &Storage, other: Option<&Storage>) -> bool
    ensures { result ≡ has_other_rows storage.now (option_copied other.entry) }
{
    match other {
        Some(other) => storage.map.rows().len() != other.map.rows().len(),
        None => false,
    }
}

fn has_other_factors(storage: &Storage, other: Option<&Storage>) -> bool
    ensures { result ≡ has_other_factors storage.now (option_copied other.entry) }
{
    match other {
        Some(other) => storage.factors.as_slice() != other.factors.as_slice(),
        None => false,
    }
}

pub(crate) fn storage_refusal(
    alloc: Global,
    program: &Program,
    variable: u32,
    storage: &Storage,
    other: Option<&Storage>,
) -> Result<Option<Reason>, MapFault>
    requires { variable < length program.now.variables }
    ensures ok { IfOk result (λ refusal. refusal ≡ storage_refusal_beside (option_copied other.entry) program.now variable storage.now) }
    ensures cause { IfErr result (λ fault. fault ≡ Memory) }
{
    if is_unwritten(program, variable) {
        let name = name_of(alloc, program, variable)?;
        return Ok(Some(Reason::Interface(name)));
    }
    if storage.map.width() != width_of(program, variable) || has_other_rows(storage, other) {
        return Ok(Some(Reason::Width));
    }
    let factors = storage.factors.as_slice();
    if factors.len() != storage.map.rows().len()
        || some_great(factors)
        || has_other_factors(storage, other)
    {
        return Ok(Some(Reason::Factor));
    }
    Ok(None)
}

pub(crate) fn order_refusal(
    alloc: Global,
    program: &Program,
    statements: &[u32],
) -> Result<Option<Reason>, MapFault>
    requires { All (λ number. number < length program.now.variables) statements.now }
    ensures ok { IfOk result (λ refusal. refusal ≡ order_refusal program.now statements.now) }
    ensures cause { IfErr result (λ fault. fault ≡ Memory) }
{
    if let Some(number) = repeated(statements) {
        let name = name_of(alloc, program, number)?;
        return Ok(Some(Reason::Twice(name)));
    }
    if let Some(number) = first_unwritten(program, statements) {
        let name = name_of(alloc, program, number)?;
        return Ok(Some(Reason::Interface(name)));
    }
    Ok(None)
}
