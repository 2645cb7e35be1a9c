//! The numbers of a program's parameters.

ghost use Rattle.std.specs.Prelude.{◌≡◌, ◌<◌, ◌^◌, nat_lt, unsigned_abs, IfOk, IfSome, OnErr, length, position};
ghost use Rattle.std.specs.Str.{bytes_eq};
ghost use Rattle.session_state.specs.Steps.{TakesAlone, with_value};
ghost use Rattle.session_state.specs.Settings.{unset, parameter, set_parameter};

use crate::{Refusal, Stop, name};
use az_ast::{Program, Reason};
use az_lin::{Limit, Name};
use std::alloc::{AllocError, Global};

/// The magnitude that no coordinate reaches.
const NO_COORDINATE: u128 = 1 << 40;

/// For each parameter in order its number: none has one yet.
pub fn unset(alloc: Global, program: &Program) -> Result<Vec<Option<i128>>, AllocError>
    ensures { IfOk result (λ settings. settings.items ≡ unset program.now) }
{
    program.params().iter().map(|_| None).collect(alloc)
}

fn place_of(params: &[Name], name: &str) -> Option<usize>
    ensures place { result ≡ position (λ param. bytes_eq param name.now) params.now }
    ensures within { IfSome result (λ place. place < length params.now) }
{
    params.iter().position(|param| param.as_str() == name)
}

fn parameter(alloc: Global, program: &Program, name: &str) -> Result<usize, Stop>
    ensures answer { TakesAlone (parameter program.now name.now) result }
    ensures within { IfOk result (λ place. place < length program.now.params) }
{
    match place_of(program.params(), name) {
        Some(place) => Ok(place),
        None => {
            let unknown = Reason::Unknown(self::name(alloc, name)?);
            Err(Stop::Refused(Refusal::Command(unknown)))
        }
    }
}

fn is_coordinate(number: i128) -> bool
    ensures { result ≡ nat_lt (unsigned_abs number) (2 ^ 40) }
{
    number.unsigned_abs() < NO_COORDINATE
}

/// Sets the number of the parameter of that name.
pub fn set_parameter(
    alloc: Global,
    program: &Program,
    settings: &mut [Option<i128>],
    name: &str,
    number: i128,
) -> Result<(), Stop>
    requires { length settings.old ≡ length program.now.params }
    ensures answer { TakesAlone (set_parameter program.now settings.old name.now number) (with_value settings.new result) }
    ensures kept { OnErr result (settings.new ≡ settings.old) }
    ensures same_length { length settings.new ≡ length settings.old }
{
    let place = parameter(alloc, program, name)?;
    if !is_coordinate(number) {
        return Err(Stop::Refused(Refusal::Limited(Limit::Coordinate)));
    }
    settings[place] = Some(number);
    Ok(())
}
