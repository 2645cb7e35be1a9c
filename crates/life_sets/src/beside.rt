//! What a writer does beside an instance and a reader, as members of a formula.

ghost use Rattle.std.specs.Prelude.{◌≡◌, ◌∷◌, ◌++◌, ◌≤◌, [], List, length, OnOk, IfOk};
ghost use Rattle.formula_refute.specs.Claims.{Claim};
ghost use Rattle.life_sets.specs.Beside.{IsWriter, comes_before, stores_into, writer_domain};
ghost use Rattle.life_sets.specs.Cells.{shared};
ghost use Rattle.life_sets.specs.Stored.{IsInstance, IsStored};
ghost use Rattle.order_sets.specs.Made.{AreMade, IsMade};
ghost use Rattle.order_sets.specs.Rows.{stamp_of};
ghost use Rattle.order_sets.specs.Visits.{time_rows};
ghost use Rattle.target_map.specs.Kinds.{tile_sizes};
ghost use Rattle.target_map.specs.Settings.{IsMapping};

use crate::instance::Instance;
use crate::same_cells::{other, same_cell};
use crate::target::Target;
use az_ast::Program;
use az_lin::LinFault;
use formula_refute::Formula;
use order_sets::{Members, TimeRows, Visit, not_before, push_domain};
use row_columns::widened_domain;
use std::alloc::{AllocError, Global};
use target_map::Mapping;

/// The writer has a point of its domain: the parameters, and its indices behind so many columns.
pub(crate) fn push_writer_domain(
    members: &mut Members,
    alloc: Global,
    program: &Program,
    y: u32,
    width: usize,
) -> Result<(), AllocError>
    requires { IsWriter program.now y width }
    ensures { (cs : List Claim) → OnOk result (AreMade cs members.old → AreMade (cs ++ writer_domain program.now width y ∷ []) members.new) }
{
    let params = program.params().len();
    let domain = &program.variables()[y as usize].domain;
    match widened_domain(alloc, domain, params, width - params) {
        Ok(wide) => {
            push_domain(members, alloc, &wide)?;
            Ok(())
        }
        Err(LinFault::Memory) => Err(AllocError),
        Err(_) => unreachable!(),
    }
}

/// Both may be kept in one cell.
fn shared(
    alloc: Global,
    mapping: &Mapping,
    writer: &Instance,
    point: &Instance,
) -> Result<Option<Formula>, AllocError>
    requires mapping { IsMapping mapping.now }
    requires writer { IsInstance mapping.now writer.now.visit writer.now }
    requires point { IsInstance mapping.now point.now.visit point.now }
    requires stored { IsStored mapping.now point.now.visit }
    ensures { IfOk result (IsMade (shared mapping.now writer.now.visit point.now.visit)) }
{
    match mapping.storage(point.visit.variable) {
        Some(storage) => same_cell(
            alloc,
            storage.factors.as_slice(),
            writer.cell.rows(),
            point.cell.rows(),
        ),
        None => unreachable!(),
    }
}

/// The writer stores into the cell of another instance, and isn't before it.
pub(crate) fn push_stores_into(
    members: &mut Members,
    alloc: Global,
    target: &Target,
    writer: &Instance,
    point: &Instance,
) -> Result<(), AllocError>
    requires mapping { IsMapping target.now.mapping.now }
    requires writer { IsInstance target.now.mapping.now writer.now.visit writer.now }
    requires point { IsInstance target.now.mapping.now point.now.visit point.now }
    requires stored { IsStored target.now.mapping.now point.now.visit }
    requires first { length target.now.program.now.params ≤ length writer.now.visit.at.rows }
    requires second { length target.now.program.now.params ≤ length point.now.visit.at.rows }
    requires sizes { target.now.sizes.now ≡ tile_sizes target.now.mapping.now.kinds }
    ensures { (cs : List Claim) → OnOk result (AreMade cs members.old
        → AreMade (cs ++ stores_into target.now.program.now target.now.mapping.now writer.now.visit point.now.visit) members.new) }
{
    members.push(shared(alloc, target.mapping, writer, point)?)?;
    members.push(other(alloc, target.program, &writer.visit, &point.visit)?)?;
    members.push(not_before(alloc, target.sizes, &writer.time, &point.time)?)?;
    Ok(())
}

/// The writer isn't the reader, and doesn't come after it.
pub(crate) fn push_comes_before(
    members: &mut Members,
    alloc: Global,
    target: &Target,
    writer: &Instance,
    reader: &Visit,
    time: &TimeRows,
) -> Result<(), AllocError>
    requires writer { IsInstance target.now.mapping.now writer.now.visit writer.now }
    requires reader { stamp_of time.now ≡ time_rows target.now.mapping.now reader.now }
    requires first { length target.now.program.now.params ≤ length writer.now.visit.at.rows }
    requires second { length target.now.program.now.params ≤ length reader.now.at.rows }
    requires sizes { target.now.sizes.now ≡ tile_sizes target.now.mapping.now.kinds }
    ensures { (cs : List Claim) → OnOk result (AreMade cs members.old
        → AreMade (cs ++ comes_before target.now.program.now target.now.mapping.now writer.now.visit reader.now) members.new) }
{
    members.push(other(alloc, target.program, &writer.visit, reader)?)?;
    members.push(not_before(alloc, target.sizes, time, &writer.time)?)?;
    Ok(())
}
