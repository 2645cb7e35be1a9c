//! The formulas of the lifetimes of a program's values, in order.

ghost use Rattle.std.specs.Prelude.{◌≡◌, ◌≤◌, All, Contains, map, IfOk};
ghost use Rattle.expr_places.specs.Lent.{read_of};
ghost use Rattle.expr_places.specs.Reads.{reads_of};
ghost use Rattle.life_sets.specs.Beside.{IsWriter};
ghost use Rattle.life_sets.specs.Fits.{FitsKeep, FitsLife, FitsLifetimes, FitsOutput, FitsRead};
ghost use Rattle.life_sets.specs.Lifetimes.{keep_of, life_of, lifetimes, lives_from, output_scope};
ghost use Rattle.life_sets.specs.Ready.{IsOwn, IsReading, IsReadyEquation, IsTarget};
ghost use Rattle.life_sets.specs.Stored.{IsInstance};
ghost use Rattle.order_sets.specs.Reading.{IsReadOf};
ghost use Rattle.order_sets.specs.Stated.{Appends, IsRefutable, States, stated_claim};
ghost use Rattle.order_sets.specs.Visits.{own_visit};
ghost use Rattle.target_map.specs.Settings.{IsComplete};
ghost use Rattle.target_map.specs.Storage.{writers_of};
ghost use Rattle.target_map.specs.Times.{domain_of};

use crate::around::Around;
use crate::formulas::{keep_formula, life_formula, width_beside};
use crate::instance::Instance;
use crate::reading::Reading;
use crate::spaces::{outputs_of, writers_of};
use crate::target::Target;
use az_ast::{Checked, Equation};
use az_lin::List;
use expr_places::{Read, Scope, places, reads};
use formula_refute::RefuteFault;
use order_sets::{Stated, Visit, tile_sizes};
use std::alloc::Global;
use target_map::{Mapping, Which};

/// The columns of a place, and behind them the indices of the first writer.
fn first_width(target: &Target, width: usize, writers: &[u32]) -> usize
    requires writers { All (λ y. IsWriter target.now.program.now y width) writers.now }
    requires narrow { width ≤ 4096 }
    ensures wide { width ≤ result }
    ensures narrow { result ≤ 4096 }
{
    match writers.first() {
        Some(y) => width_beside(target, width, *y),
        None => width,
    }
}

/// Appends the formulas of a read, one for each writer of its space.
fn push_writers(
    alloc: Global,
    list: &mut Vec<Stated>,
    target: &Target,
    x: u32,
    number: u32,
    read: &Read,
    reading: &Reading,
) -> Result<(), RefuteFault>
    requires target { IsTarget target.now.program.now target.now.mapping.now target.now.sizes.now }
    requires reader { IsOwn target.now.program.now x }
    requires read { IsReadOf target.now.program.now x (read_of read.now) }
    requires reading { IsReading target.now.program.now target.now.mapping.now x (read_of read.now) reading.now }
    requires writers { All (IsOwn target.now.program.now) (writers_of target.now.program.now target.now.mapping.now read.now.variable) }
    ensures { let p = target.now.program.now in let m = target.now.mapping.now in let place = read_of read.now in
        Appends (All (FitsLife p m x place) (writers_of p m place.variable)) (map (life_of p m x number place) (writers_of p m place.variable)) list.old.items list.new.items result }
{
    let writers = writers_of(alloc, target.program, target.mapping, read.variable)?;
    let width = first_width(target, read.scope.width, &writers);
    let around = Around::new(alloc, &read.scope, width)?;
    'writers: for place in 0..writers.len() {
        let y = writers[place];
        let Some(formula) = life_formula(alloc, target, x, read, &around, reading, y)? else {
            return Err(RefuteFault::Entry);
        };
        list.push(Stated {
            which: Which::Life {
                reader: x,
                read: number,
                writer: y,
            },
            width: width_beside(target, read.scope.width, y),
            formula,
        })?;
    }
    Ok(())
}

/// Appends the formulas of a read.
fn push_read(
    alloc: Global,
    list: &mut Vec<Stated>,
    target: &Target,
    x: u32,
    number: u32,
    read: &Read,
) -> Result<(), RefuteFault>
    requires target { IsTarget target.now.program.now target.now.mapping.now target.now.sizes.now }
    requires reader { IsOwn target.now.program.now x }
    requires read { IsReadOf target.now.program.now x (read_of read.now) }
    requires writers { All (IsOwn target.now.program.now) (writers_of target.now.program.now target.now.mapping.now read.now.variable) }
    ensures { let p = target.now.program.now in let m = target.now.mapping.now in let place = read_of read.now in
        Appends (FitsRead p m x place) (map (life_of p m x number place) (writers_of p m place.variable)) list.old.items list.new.items result }
{
    let Some(reading) = Reading::new(alloc, target, x, read)? else {
        return Err(RefuteFault::Entry);
    };
    push_writers(alloc, list, target, x, number, read, &reading)
}

/// Appends the formulas of the equation's reads.
fn push_reads(
    alloc: Global,
    list: &mut Vec<Stated>,
    target: &Target,
    equation: &Equation,
) -> Result<(), RefuteFault>
    requires target { IsTarget target.now.program.now target.now.mapping.now target.now.sizes.now }
    requires inside { Contains target.now.program.now.equations equation.now }
    requires ready { IsReadyEquation target.now.program.now target.now.mapping.now equation.now }
    ensures { let p = target.now.program.now in let m = target.now.mapping.now in let x = equation.now.variable in
        Appends (All (FitsRead p m x) (reads_of p equation.now)) (lives_from p m x 0 (reads_of p equation.now)) list.old.items list.new.items result }
{
    let places = places(alloc, target.program, equation)?;
    let reads = reads(alloc, target.program.variables(), places.as_slice())?;
    'reads: for number in 0..reads.len() {
        let read = &reads[number];
        match push_read(alloc, list, target, equation.variable, number as u32, read) {
            Ok(()) => {}
            Err(fault) => return Err(fault),
        }
    }
    Ok(())
}

/// Appends the formulas of an output, one for each writer of its space.
fn push_keeps(
    alloc: Global,
    list: &mut Vec<Stated>,
    target: &Target,
    x: u32,
    scope: &Scope,
    point: &Instance,
) -> Result<(), RefuteFault>
    requires target { IsTarget target.now.program.now target.now.mapping.now target.now.sizes.now }
    requires output { IsOwn target.now.program.now x }
    requires scope { scope.now ≡ output_scope target.now.program.now x }
    requires point { IsInstance target.now.mapping.now (own_visit target.now.program.now x (domain_of target.now.program.now x).width) point.now }
    requires writers { All (IsOwn target.now.program.now) (writers_of target.now.program.now target.now.mapping.now x) }
    ensures { let p = target.now.program.now in let m = target.now.mapping.now in
        Appends (All (FitsKeep p m x) (writers_of p m x)) (map (keep_of p m x) (writers_of p m x)) list.old.items list.new.items result }
{
    let writers = writers_of(alloc, target.program, target.mapping, x)?;
    let width = first_width(target, scope.width, &writers);
    let around = Around::new(alloc, scope, width)?;
    'writers: for place in 0..writers.len() {
        let y = writers[place];
        let Some(formula) = keep_formula(alloc, target, x, &around, point, y)? else {
            return Err(RefuteFault::Entry);
        };
        list.push(Stated {
            which: Which::Keep {
                output: x,
                writer: y,
            },
            width: width_beside(target, scope.width, y),
            formula,
        })?;
    }
    Ok(())
}

/// Appends the formulas of an output.
fn push_output(
    alloc: Global,
    list: &mut Vec<Stated>,
    target: &Target,
    x: u32,
) -> Result<(), RefuteFault>
    requires target { IsTarget target.now.program.now target.now.mapping.now target.now.sizes.now }
    requires output { IsOwn target.now.program.now x }
    requires writers { All (IsOwn target.now.program.now) (writers_of target.now.program.now target.now.mapping.now x) }
    ensures { let p = target.now.program.now in let m = target.now.mapping.now in
        Appends (FitsOutput p m x) (map (keep_of p m x) (writers_of p m x)) list.old.items list.new.items result }
{
    let variable = &target.program.variables()[x as usize];
    let scope = Scope::of_body(alloc, target.program, variable)?;
    let point = Visit::of_first(alloc, target.program, x, scope.width)?;
    let Some(point) = Instance::new(alloc, target.mapping, point)? else {
        return Err(RefuteFault::Entry);
    };
    push_keeps(alloc, list, target, x, &scope, &point)
}

/// For each equation in order, each of its reads and each writer of the space of what is read, the
/// formula that is true where the writer stores over what is read before it is; then for each output
/// and each writer of its space, the formula that is true where the writer stores over its value.
/// `Entry` where a row that is composed or made of composed rows is out of range.
pub fn lifetime_formulas(
    alloc: Global,
    checked: &Checked,
    mapping: &Mapping,
) -> Result<List<Stated>, RefuteFault>
    requires { IsComplete checked.now mapping.now }
    ensures answer { States (FitsLifetimes checked.now mapping.now) (lifetimes checked.now mapping.now) result }
    ensures refutable { IfOk result (λ list. All IsRefutable (map stated_claim list)) }
{
    let program = checked.program();
    let sizes = tile_sizes(alloc, mapping.kinds())?;
    let target = Target {
        program,
        mapping,
        sizes: sizes.as_slice(),
    };
    let mut list = Vec::new(alloc);
    'equations: for equation in program.equations() {
        match push_reads(alloc, &mut list, &target, equation) {
            Ok(()) => {}
            Err(fault) => return Err(fault),
        }
    }
    let outputs = outputs_of(alloc, program)?;
    'outputs: for x in &outputs {
        match push_output(alloc, &mut list, &target, *x) {
            Ok(()) => {}
            Err(fault) => return Err(fault),
        }
    }
    Ok(List::from_vec(list))
}
