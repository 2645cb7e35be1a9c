//! The formula of a read or an output, and a writer of its space.

ghost use Rattle.std.specs.Prelude.{◌≡◌, ◌+◌, ◌++◌, List, OnOk, IfOk};
ghost use Rattle.domain_check.specs.Context.{context};
ghost use Rattle.expr_places.specs.Lent.{read_of};
ghost use Rattle.formula_refute.specs.Claims.{Claim, claim};
ghost use Rattle.life_sets.specs.Around.{AreAround};
ghost use Rattle.life_sets.specs.Beside.{IsWriter};
ghost use Rattle.life_sets.specs.Fits.{FitsKeep, FitsLife};
ghost use Rattle.life_sets.specs.Lifetimes.{keep_claim, life_claim, output_scope, stores_over, with_writer};
ghost use Rattle.life_sets.specs.Ready.{IsBeside, IsOwn, IsReading, IsTarget};
ghost use Rattle.life_sets.specs.Stored.{FitsVisit, IsInstance};
ghost use Rattle.order_sets.specs.Made.{AreMade, MadeIf};
ghost use Rattle.order_sets.specs.Reading.{IsReadOf};
ghost use Rattle.order_sets.specs.Visits.{own_visit, writer_visit};
ghost use Rattle.target_map.specs.Times.{domain_of, indices_of};

use crate::around::Around;
use crate::beside::{push_comes_before, push_stores_into, push_writer_domain};
use crate::instance::Instance;
use crate::reading::Reading;
use crate::target::Target;
use expr_places::Read;
use formula_refute::Formula;
use order_sets::{Members, Visit};
use std::alloc::{AllocError, Global};

/// The columns of a place, and the writer's indices behind them.
pub(crate) fn width_beside(target: &Target, width: usize, y: u32) -> usize
    requires { IsWriter target.now.program.now y width }
    ensures { result ≡ width + indices_of target.now.program.now y }
{
    let params = target.program.params().len();
    width + target.program.variables()[y as usize].indices(params)
}

/// The writer behind so many columns; none where a row is out of range.
fn writer_behind(
    alloc: Global,
    target: &Target,
    width: usize,
    y: u32,
) -> Result<Option<Instance>, AllocError>
    requires target { IsTarget target.now.program.now target.now.mapping.now target.now.sizes.now }
    requires writer { IsOwn target.now.program.now y }
    requires columns { IsWriter target.now.program.now y width }
    ensures { IfOk result (MadeIf (FitsVisit target.now.mapping.now (writer_visit target.now.program.now y width))
        (IsInstance target.now.mapping.now (writer_visit target.now.program.now y width))) }
{
    let visit = Visit::of_writer(alloc, target.program, y, width)?;
    Instance::new(alloc, target.mapping, visit)
}

/// What is in force is, and the writer stores over the instance.
fn push_beside(
    members: &mut Members,
    alloc: Global,
    target: &Target,
    around: &Around,
    y: u32,
    writer: &Instance,
    point: &Instance,
) -> Result<(), AllocError>
    requires target { IsTarget target.now.program.now target.now.mapping.now target.now.sizes.now }
    requires around { AreAround around.now }
    requires beside { IsBeside target.now.program.now target.now.mapping.now around.now.scope.now y writer.now point.now }
    ensures { (cs : List Claim) → OnOk result (AreMade cs members.old → AreMade (cs ++ (context (with_writer target.now.program.now around.now.scope.now y)
        ++ stores_over target.now.program.now target.now.mapping.now around.now.scope.now.width y point.now.visit)) members.new) }
{
    let width = width_beside(target, around.scope.width, y);
    around.push(members, alloc, width)?;
    push_writer_domain(members, alloc, target.program, y, around.scope.width)?;
    push_stores_into(members, alloc, target, writer, point)?;
    Ok(())
}

/// The formula of a read; none where a row is out of range.
pub(crate) fn life_formula(
    alloc: Global,
    target: &Target,
    x: u32,
    read: &Read,
    around: &Around,
    reading: &Reading,
    y: u32,
) -> Result<Option<Formula>, AllocError>
    requires target { IsTarget target.now.program.now target.now.mapping.now target.now.sizes.now }
    requires reader { IsOwn target.now.program.now x }
    requires read { IsReadOf target.now.program.now x (read_of read.now) }
    requires around { AreAround around.now }
    requires scope { around.now.scope.now ≡ read.now.scope }
    requires reading { IsReading target.now.program.now target.now.mapping.now x (read_of read.now) reading.now }
    requires writer { IsOwn target.now.program.now y }
    ensures { IfOk result (MadeIf (FitsLife target.now.program.now target.now.mapping.now x (read_of read.now) y)
        (λ formula. claim formula ≡ life_claim target.now.program.now target.now.mapping.now x (read_of read.now) y)) }
{
    let _ = x;
    let Some(writer) = writer_behind(alloc, target, read.scope.width, y)? else {
        return Ok(None);
    };
    let mut members = Members::new(alloc);
    push_beside(
        &mut members,
        alloc,
        target,
        around,
        y,
        &writer,
        &reading.point,
    )?;
    push_comes_before(
        &mut members,
        alloc,
        target,
        &writer,
        &reading.reader,
        &reading.time,
    )?;
    Ok(members.all())
}

/// The formula of an output; none where a row is out of range.
pub(crate) fn keep_formula(
    alloc: Global,
    target: &Target,
    x: u32,
    around: &Around,
    point: &Instance,
    y: u32,
) -> Result<Option<Formula>, AllocError>
    requires target { IsTarget target.now.program.now target.now.mapping.now target.now.sizes.now }
    requires output { IsOwn target.now.program.now x }
    requires around { AreAround around.now }
    requires scope { around.now.scope.now ≡ output_scope target.now.program.now x }
    requires point { IsInstance target.now.mapping.now (own_visit target.now.program.now x (domain_of target.now.program.now x).width) point.now }
    requires writer { IsOwn target.now.program.now y }
    ensures { IfOk result (MadeIf (FitsKeep target.now.program.now target.now.mapping.now x y)
        (λ formula. claim formula ≡ keep_claim target.now.program.now target.now.mapping.now x y)) }
{
    let _ = x;
    let Some(writer) = writer_behind(alloc, target, around.scope.width, y)? else {
        return Ok(None);
    };
    let mut members = Members::new(alloc);
    push_beside(&mut members, alloc, target, around, y, &writer, point)?;
    Ok(members.all())
}
