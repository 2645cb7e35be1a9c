//! The instances that a formula speaks of.

ghost use Rattle.std.specs.Prelude.{◌≡◌, ◌+◌, ◌<◌, ◌≤◌, length, IfOk};
ghost use Rattle.az_lin.specs.Columns.{reading};
ghost use Rattle.expr_places.specs.Lent.{read_of};
ghost use Rattle.order_sets.specs.Visits.{read_visit, own_visit, writer_visit};
ghost use Rattle.target_map.specs.Times.{domain_of, indices_of};

use az_ast::Program;
use az_lin::{LinFault, List, Map};
use expr_places::Read;
use row_columns::{extended, reading};
use std::alloc::{AllocError, Global};

/// A variable, and the map from the formula's columns to its point: the parameters and its indices.
#[derive(Debug, Drop)]
pub struct Visit {
    pub variable: u32,
    pub at: Map,
}

/// The first coordinates, and then the map's.
fn reading_map(alloc: Global, first: usize, map: &Map) -> Result<Map, AllocError>
    requires { first ≤ map.now.width }
    ensures { IfOk result (λ read. read ≡ reading first map.now) }
{
    match reading(alloc, first, map) {
        Ok(read) => Ok(read),
        Err(LinFault::Memory) => Err(AllocError),
        Err(_) => unreachable!(),
    }
}

impl Visit {
    /// The point that is read.
    pub fn of_read(alloc: Global, program: &Program, read: &Read) -> Result<Visit, AllocError>
        requires { length program.now.params ≤ read.now.map.now.width }
        ensures { IfOk result (λ visit. visit ≡ read_visit program.now (read_of read.now)) }
    {
        let at = reading_map(alloc, program.params().len(), read.map)?;
        Ok(Visit {
            variable: read.variable,
            at,
        })
    }

    /// The instance whose point has the first columns of so many.
    pub fn of_first(
        alloc: Global,
        program: &Program,
        variable: u32,
        width: usize,
    ) -> Result<Visit, AllocError>
        requires declared { variable < length program.now.variables }
        requires inside { (domain_of program.now variable).width ≤ width }
        ensures { IfOk result (λ visit. visit ≡ own_visit program.now variable width) }
    {
        let columns = program.variables()[variable as usize].domain.width();
        let none = Map::new(width, List::new(alloc));
        let at = reading_map(alloc, columns, &none)?;
        Ok(Visit { variable, at })
    }

    /// The instance that has the parameters, and its indices behind so many columns.
    pub fn of_writer(
        alloc: Global,
        program: &Program,
        variable: u32,
        width: usize,
    ) -> Result<Visit, AllocError>
        requires declared { variable < length program.now.variables }
        requires params { length program.now.params ≤ width }
        requires narrow { width + indices_of program.now variable ≤ 4096 }
        ensures { IfOk result (λ visit. visit ≡ writer_visit program.now variable width) }
    {
        let params = program.params().len();
        let indices = program.variables()[variable as usize].indices(params);
        let none = Map::new(width, List::new(alloc));
        match extended(alloc, &none, indices) {
            Ok(behind) => {
                let at = reading_map(alloc, params, &behind)?;
                Ok(Visit { variable, at })
            }
            Err(LinFault::Memory) => Err(AllocError),
            Err(_) => unreachable!(),
        }
    }
}
