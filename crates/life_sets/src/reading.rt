//! The two instances of a read.

ghost use Rattle.std.specs.Prelude.{IfOk};
ghost use Rattle.az_lin.specs.Substitution.{HasEntryRows};
ghost use Rattle.expr_places.specs.Lent.{read_of};
ghost use Rattle.life_sets.specs.Fits.{FitsReading};
ghost use Rattle.life_sets.specs.Ready.{IsOwn, IsReading, IsTarget};
ghost use Rattle.order_sets.specs.Made.{MadeIf};
ghost use Rattle.order_sets.specs.Reading.{IsReadOf};

use crate::instance::Instance;
use crate::target::Target;
use expr_places::Read;
use order_sets::{TimeRows, Visit};
use std::alloc::{AllocError, Global};

/// The point that is read, and the instance that reads with its coordinates in time.
#[derive(Debug, Drop)]
pub(crate) struct Reading {
    pub(crate) point: Instance,
    pub(crate) reader: Visit,
    pub(crate) time: TimeRows,
}

impl Reading {
    /// None where a row is out of range.
    pub(crate) fn new(
        alloc: Global,
        target: &Target,
        x: u32,
        read: &Read,
    ) -> Result<Option<Reading>, AllocError>
        requires target { IsTarget target.now.program.now target.now.mapping.now target.now.sizes.now }
        requires reader { IsOwn target.now.program.now x }
        requires read { IsReadOf target.now.program.now x (read_of read.now) }
        ensures { IfOk result (MadeIf (FitsReading target.now.program.now target.now.mapping.now x (read_of read.now))
            (IsReading target.now.program.now target.now.mapping.now x (read_of read.now))) }
    {
        let point = Visit::of_read(alloc, target.program, read)?;
        let Some(point) = Instance::new(alloc, target.mapping, point)? else {
            return Ok(None);
        };
        let reader = Visit::of_first(alloc, target.program, x, read.scope.width)?;
        let Some(time) = TimeRows::of_visit(alloc, target.mapping, &reader)? else {
            return Ok(None);
        };
        Ok(Some(Reading {
            point,
            reader,
            time,
        }))
    }
}
