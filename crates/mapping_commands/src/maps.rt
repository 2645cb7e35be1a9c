//! Maps, as a script has them.

ghost use Rattle.std.specs.Prelude.{◌≡◌, ◌++◌, All, IfErr, IfOk, length, map, option_map, pos};
ghost use Rattle.az_lin.specs.Affine.{HasWidth, IsEntry};
ghost use Rattle.command_script.specs.Resolved.{meant};
ghost use Rattle.mapping_commands.specs.Maps.{name_reason};
ghost use Rattle.mapping_commands.specs.Shapes.{IsMeant};
ghost use Rattle.session_state.specs.Steps.{IsStopFor};
ghost use Rattle.session_state.specs.declared.refusal.Refusal.TheVariants.{Command};
ghost use Rattle.session_state.specs.declared.stop.Stop.TheVariants.{Memory};

use crate::stops::refused;
use az_ast::Reason;
use az_lin::{LinFault, List, Map, Name, Row};
use command_script::{MapText, ResolveFault, resolve_map};
use session_state::Stop;
use std::alloc::{AllocError, Global};

/// The map that is meant, where its entries are in range; else one of its width with as many rows.
#[derive(Debug, Drop)]
pub(crate) struct Shaped {
    pub(crate) map: Map,
    pub(crate) fits: bool,
}

/// A zero for each column of a map.
fn zeros(alloc: Global, params: &[Name], indices: &[Name]) -> Result<Vec<i128>, AllocError>
    ensures { IfOk result (λ zeros. zeros.items ≡ map (λ name. pos 0) (params.now ++ indices.now)) }
{
    params
        .iter()
        .chain(indices.iter())
        .map(|_| 0)
        .collect(alloc)
}

fn zero_row(alloc: Global, zeros: &[i128]) -> Result<Row, Stop>
    requires { All IsEntry zeros.now }
    ensures ok { IfOk result (HasWidth (length zeros.now)) }
    ensures cause { IfErr result (λ stop. stop ≡ Memory) }
{
    match Row::new(alloc, zeros, 0) {
        Ok(row) => Ok(row),
        Err(LinFault::Memory) => Err(Stop::Memory),
        Err(_) => unreachable!(),
    }
}

/// A map with so many rows.
fn zero_map(alloc: Global, zeros: &[i128], count: usize) -> Result<Map, Stop>
    requires { All IsEntry zeros.now }
    ensures ok { IfOk result (λ map. (map.width ≡ length zeros.now) × (length map.rows ≡ count)) }
    ensures cause { IfErr result (λ stop. stop ≡ Memory) }
{
    let mut rows = Vec::with_capacity(alloc, count)?;
    'rows: for number in 0..count {
        let _ = number;
        rows.push(zero_row(alloc, zeros)?)?;
    }
    Ok(Map::new(zeros.len(), List::from_vec(rows)))
}

/// A map of the width of the one that is written, with as many rows.
fn shape_of(alloc: Global, text: &MapText, params: &[Name]) -> Result<Map, Stop>
    ensures ok { IfOk result (λ map. (map.width ≡ (meant params.now text.now).width) × (length map.rows ≡ length (meant params.now text.now).rows)) }
    ensures cause { IfErr result (λ stop. stop ≡ Memory) }
{
    let zeros = zeros(alloc, params, text.indices.as_slice())?;
    zero_map(alloc, zeros.as_slice(), text.rows.len())
}

/// What the map as written means, once its names are known.
pub(crate) fn meant(alloc: Global, text: &MapText, params: &[Name]) -> Result<Shaped, Stop>
    ensures ok { IfOk result (IsMeant params.now text.now) }
    ensures stop { IfErr result (IsStopFor (option_map Command (name_reason params.now text.now))) }
{
    match resolve_map(alloc, text, params) {
        Ok(map) => Ok(Shaped { map, fits: true }),
        Err(ResolveFault::Unknown(name)) => Err(refused(Reason::Unknown(name))),
        Err(ResolveFault::Twice(name)) => Err(refused(Reason::Twice(name))),
        Err(ResolveFault::Entry) => Ok(Shaped {
            map: shape_of(alloc, text, params)?,
            fits: false,
        }),
        Err(ResolveFault::Memory) => Err(Stop::Memory),
    }
}
