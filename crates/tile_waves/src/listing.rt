//! The instances of a program with their keys, variable by variable.

ghost use Rattle.std.specs.Prelude.{◌≡◌, ◌+◌, ◌≤◌, ◌⊎◌, IsTrue, ◌↔◌, length, All, OnOk, IfOk, IfErr, MatchBool, ◌<◌, ◌∷◌, []};
ghost use Rattle.az_lin.specs.Affine.{IsEntry, IsCoordinate, image_of};
ghost use Rattle.loop_scan.specs.Members.{IsPoint};
ghost use Rattle.target_map.specs.Times.{time_of};
ghost use Rattle.tile_waves.specs.Answers.{RefusesWaves, most_instances};
ghost use Rattle.tile_waves.specs.Inner.Items.{IsItem};
ghost use Rattle.tile_waves.specs.Inner.Listed.{instance, IsNear, IsTooFar, IsListing, IsVariable, RefusesPoints, RefusesVariable, AreListed};

use crate::item::Item;
use crate::key::{tile_key, wave_key, work_key};
use az_lin::{Domain, Limit, List, Map};
use execution::Instance;
use loop_scan::{ScanFault, Scanner};
use std::alloc::Global;
use target_map::{CertifiedMap, Mapping};

/// The most instances of a plan.
const MOST_INSTANCES: usize = 1 << 20;

/// The greatest magnitude of a coordinate.
const MOST_COORDINATE: i128 = (1 << 40) - 1;

fn is_coordinate(number: i128) -> bool
    ensures { IsTrue result ↔ IsCoordinate number }
{
    -MOST_COORDINATE <= number && number <= MOST_COORDINATE
}

fn are_coordinates(numbers: &[i128]) -> bool
    ensures { IsTrue result ↔ All IsCoordinate numbers.now }
{
    numbers.iter().all(|number| is_coordinate(*number))
}

/// The coordinates in time at a point: the parameters and the indices.
fn times_at(alloc: Global, time: &Map, z: &[i128]) -> Result<Vec<i128>, ScanFault>
    requires width { length z.now ≡ time.now.width }
    requires narrow { length z.now ≤ 64 }
    requires range { All IsCoordinate z.now }
    ensures ok { IfOk result (λ times. times.items ≡ image_of time.now z.now) }
    ensures near { IfOk result (λ times. All IsCoordinate times.items) }
    ensures cause { IfErr result (IsTooFar (All IsCoordinate (image_of time.now z.now))) }
{
    let mut times = vec![in alloc; 0; time.rows().len()]?;
    time.apply(z, times.as_mut_slice());
    if !are_coordinates(times.as_slice()) {
        return Err(ScanFault::Limit(Limit::Coordinate));
    }
    Ok(times)
}

/// What is listed: the instances of one variable under a mapping.
#[derive(Debug, Clone, Copy)]
pub(crate) struct Variable<'a> {
    pub(crate) number: u32,
    pub(crate) mapping: &'a Mapping,
    pub(crate) time: &'a Map,
    pub(crate) params: &'a [i128],
}

/// The item of the variable's instance at the point.
fn item_at(alloc: Global, variable: Variable<'_>, point: &[i128]) -> Result<Item, ScanFault>
    requires time { variable.time.now ≡ time_of variable.mapping.now variable.number }
    requires width { length variable.params.now + length point.now ≡ variable.time.now.width }
    requires narrow { variable.time.now.width ≤ 64 }
    requires params { All IsCoordinate variable.params.now }
    requires point { All IsCoordinate point.now }
    ensures keys { IfOk result (IsItem variable.entry.mapping.now variable.entry.params.now) }
    ensures instance { IfOk result (λ item. item.instance ≡ instance variable.entry.number point.now) }
    ensures near { IfOk result (λ _. IsNear variable.entry.mapping.now variable.entry.params.now (instance variable.entry.number point.now)) }
    ensures cause { IfErr result (IsTooFar (IsNear variable.entry.mapping.now variable.entry.params.now (instance variable.entry.number point.now))) }
{
    let mut z = Vec::from_slice(alloc, variable.params)?;
    z.extend_from_slice(point)?;
    let times = match times_at(alloc, variable.time, z.as_slice()) {
        Ok(times) => times,
        Err(fault) => return Err(fault),
    };
    let wave = wave_key(alloc, variable.mapping, times.as_slice())?;
    let tile = tile_key(alloc, variable.mapping, times.as_slice())?;
    let work = work_key(
        alloc,
        variable.mapping,
        times.as_slice(),
        variable.number,
        point,
    )?;
    let point = List::from_vec(Vec::from_slice(alloc, point)?);
    let instance = Instance {
        variable: variable.number,
        point,
    };
    Ok(Item {
        wave,
        tile,
        work,
        instance,
    })
}

/// Writes the next point, if there is one.
fn advance(scanner: &mut Scanner, point: &mut Vec<i128>) -> bool
    requires { length point.old.items ≡ scanner.old.width }
    ensures width { scanner.new.width ≡ scanner.old.width }
    ensures room { length point.new.items ≡ scanner.new.width }
    ensures point { MatchBool result (scanner.old.to_come ≡ point.new.items ∷ scanner.new.to_come) ((scanner.old.to_come ≡ []) × (scanner.new.to_come ≡ [])) }
{
    scanner.next_point(point.as_mut_slice())
}

/// Appends the instances at the points that the scanner has to come.
fn push_points(
    items: &mut Vec<Item>,
    alloc: Global,
    variable: Variable<'_>,
    scanner: Scanner,
) -> Result<(), ScanFault>
    requires time { variable.time.now ≡ time_of variable.mapping.now variable.number }
    requires width { length variable.params.now + scanner.width ≡ variable.time.now.width }
    requires narrow { variable.time.now.width ≤ 64 }
    requires params { All IsCoordinate variable.params.now }
    requires points { All (IsPoint scanner.width) scanner.to_come }
    requires few { length items.old.items ≤ most_instances }
    ensures ok { OnOk result (IsListing variable.entry.mapping.now variable.entry.params.now variable.entry.number items.old.items items.new.items scanner.to_come []) }
    ensures few { OnOk result (length items.new.items ≤ most_instances) }
    ensures cause { IfErr result (RefusesPoints variable.entry.mapping.now variable.entry.params.now variable.entry.number items.old.items scanner.to_come) }
{
    let mut scanner = scanner;
    let mut point = vec![in alloc; 0; scanner.width()]?;
    'points: while advance(&mut scanner, &mut point) {
        if items.len() >= MOST_INSTANCES {
            return Err(ScanFault::Limit(Limit::Instances));
        }
        match item_at(alloc, variable, point.as_slice()) {
            Ok(item) => items.push(item)?,
            Err(fault) => return Err(fault),
        }
    }
    Ok(())
}

/// Appends the instances of the variable with the domain.
fn push_variable(
    items: &mut Vec<Item>,
    alloc: Global,
    variable: Variable<'_>,
    domain: &Domain,
) -> Result<(), ScanFault>
    requires time { variable.time.now ≡ time_of variable.mapping.now variable.number }
    requires width { domain.now.width ≡ variable.time.now.width }
    requires narrow { domain.now.width ≤ 64 }
    requires inside { length variable.params.now ≤ domain.now.width }
    requires entries { All IsEntry variable.params.now }
    requires few { length items.old.items ≤ most_instances }
    ensures ok { OnOk result (IsVariable variable.entry.mapping.now variable.entry.params.now variable.entry.number domain.now items.old.items items.new.items) }
    ensures cause { IfErr result (RefusesVariable variable.entry.mapping.now variable.entry.params.now variable.entry.number domain.now items.old.items) }
{
    let scanner = match Scanner::new(alloc, domain, variable.params) {
        Ok(scanner) => scanner,
        Err(fault) => return Err(fault),
    };
    push_points(items, alloc, variable, scanner)
}

/// Appends the instances of the variable at the place, if it is an output or local.
fn push_at(
    items: &mut Vec<Item>,
    alloc: Global,
    map: &CertifiedMap,
    params: &[i128],
    place: usize,
) -> Result<(), ScanFault>
    requires declared { place < length map.now.program.variables }
    requires count { length params.now ≡ length map.now.program.params }
    requires entries { All IsEntry params.now }
    requires listed { AreListed map.now.program map.now.mapping params.now place items.old.items }
    ensures ok { OnOk result (AreListed map.now.program map.now.mapping params.now (place + 1) items.new.items) }
    ensures cause { IfErr result (RefusesWaves map.now.program map.now.mapping params.now) }
{
    let variables = map.checked().program().variables();
    let mapping = map.mapping();
    let domain = &variables[place].domain;
    let number = place as u32;
    let Some(time) = mapping.space_time(number) else {
        return Ok(());
    };
    let variable = Variable {
        number,
        mapping,
        time,
        params,
    };
    push_variable(items, alloc, variable, domain)
}

/// All instances with their keys, in order of the variables.
pub(crate) fn listed(
    alloc: Global,
    map: &CertifiedMap,
    params: &[i128],
) -> Result<Vec<Item>, ScanFault>
    requires count { length params.now ≡ length map.now.program.params }
    requires entries { All IsEntry params.now }
    ensures ok { IfOk result (λ items. AreListed map.now.program map.now.mapping params.now (length map.now.program.variables) items.items) }
    ensures cause { IfErr result (RefusesWaves map.now.program map.now.mapping params.now) }
{
    let count = map.checked().program().variables().len();
    let mut items = Vec::new(alloc);
    'variables: for place in 0..count {
        match push_at(&mut items, alloc, map, params, place) {
            Ok(()) => {}
            Err(fault) => return Err(fault),
        }
    }
    Ok(items)
}
