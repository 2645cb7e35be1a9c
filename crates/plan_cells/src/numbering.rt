//! Numbers for the cells of instances.

ghost use Rattle.std.specs.Prelude.{◌≡◌, ◌≤◌, ◌<◌, map, get_or, pos, length, All, IfOk, IfErr, IfSome};
ghost use Rattle.std.specs.List.{range_with_len};
ghost use Rattle.az_lin.specs.Affine.{IsCoordinate};
ghost use Rattle.plan_cells.specs.Answers.{IsKeepable, IsFar, NumbersAnswer};
ghost use Rattle.plan_cells.specs.Numbering.{range_at, kept_with, sides_of, taken, first_of};
ghost use Rattle.plan_cells.specs.Inner.Passing.{IsNarrow, IsFault, HasCoordinate, AreTaken};
ghost use Rattle.target_map.specs.Settings.{IsMapping, IsComplete};
ghost use Rattle.target_map.specs.Storage.{shares_space};
ghost use Rattle.target_map.specs.Times.{storage_of, cell_at};

use crate::numbers::{Cells, Home};
use crate::range::{Range, stretched};
use crate::sharing::{first_of, opens, sharers};
use crate::side::{Side, side_over, volume};
use az_ast::Program;
use az_lin::{Limit, List};
use execution::Instance;
use loop_scan::ScanFault;
use std::alloc::Global;
use target_map::Mapping;

/// The most cells, beside the counter.
const MOST_CELLS: u64 = (1 << 20) - 1;

/// The greatest magnitude of a coordinate.
const MOST_COORDINATE: i128 = (1 << 40) - 1;

/// What is numbered: instances of a program under a mapping, at some parameters.
#[derive(Debug, Clone, Copy)]
pub struct Kept<'a> {
    pub program: &'a Program,
    pub mapping: &'a Mapping,
    pub params: &'a [i128],
    pub instances: &'a [Instance],
}

impl Kept<'_> {
    /// A coordinate of the cell at a point of the variable.
    fn coordinate(&self, variable: u32, z: &[i128], number: usize) -> Result<i128, ScanFault>
        requires stored { HasCoordinate self.now.mapping.now variable (length z.now) number }
        requires narrow { length z.now ≤ 64 }
        requires range { All IsCoordinate z.now }
        ensures ok { IfOk result (λ value. value ≡ get_or (cell_at self.now.mapping.now variable z.now) number (pos 0)) }
        ensures range { IfOk result IsCoordinate }
        ensures cause { IfErr result (IsFault (All IsCoordinate (cell_at self.now.mapping.now variable z.now) → ⊥)) }
    {
        let Some(storage) = self.mapping.storage(variable) else {
            unreachable!()
        };
        let value = storage.map.rows()[number].value(z);
        if value < -MOST_COORDINATE || MOST_COORDINATE < value {
            return Err(ScanFault::Limit(Limit::Coordinate));
        }
        Ok(value)
    }

    /// The range of a coordinate over the instances in the space of `x`.
    fn range_of(
        &self,
        alloc: Global,
        x: u32,
        sharers: &[bool],
        number: usize,
    ) -> Result<Option<Range>, ScanFault>
        requires mapping { IsMapping self.now.mapping.now }
        requires complete { IsComplete self.now.program.now self.now.mapping.now }
        requires keepable { All (IsKeepable self.now.program.now self.now.params.now) self.now.instances.now }
        requires sharers { sharers.now ≡ map (shares_space self.now.mapping.now x) (range_with_len 0 (length self.now.program.now.variables)) }
        requires number { number < length (storage_of self.now.mapping.now x).factors }
        ensures ok { IfOk result (λ range. range ≡ range_at self.now.mapping.now self.now.params.now (kept_with self.now.mapping.now self.now.params.now self.now.instances.now x) number) }
        ensures narrow { IfOk result (λ range. IfSome range IsNarrow) }
        ensures cause { IfErr result (IsFault (IsFar self.now.program.now self.now.mapping.now self.now.params.now self.now.instances.now)) }
    {
        let mut range = None;
        let mut z = Vec::from_slice(alloc, self.params)?;
        'instances: for u in self.instances {
            if sharers[u.variable as usize] {
                z.truncate(self.params.len());
                z.extend_from_slice(u.point.as_slice())?;
                let value = self.coordinate(u.variable, &z, number)?;
                range = stretched(range, value);
            }
        }
        Ok(range)
    }

    /// The sides of the box of `x`, which has so many coordinates.
    fn sides_of(&self, alloc: Global, x: u32) -> Result<Vec<Side>, ScanFault>
        requires mapping { IsMapping self.now.mapping.now }
        requires complete { IsComplete self.now.program.now self.now.mapping.now }
        requires keepable { All (IsKeepable self.now.program.now self.now.params.now) self.now.instances.now }
        ensures ok { IfOk result (λ sides. sides.items ≡ sides_of self.now.mapping.now self.now.params.now self.now.instances.now x) }
        ensures cause { IfErr result (IsFault (IsFar self.now.program.now self.now.mapping.now self.now.params.now self.now.instances.now)) }
    {
        let mut sides = Vec::new(alloc);
        let Some(storage) = self.mapping.storage(x) else {
            return Ok(sides);
        };
        let count = self.program.variables().len() as u32;
        let sharers = sharers(alloc, self.mapping, x, count)?;
        let factors = storage.factors.as_slice();
        'factors: for number in 0..factors.len() {
            let range = match self.range_of(alloc, x, &sharers, number) {
                Ok(range) => range,
                Err(fault) => return Err(fault),
            };
            sides.push(side_over(range, factors[number]))?;
        }
        Ok(sides)
    }

    /// Where the cells of the space of `x` begin, where the homes of the variables before are these.
    fn base_of(&self, x: u32, homes: &[Home], used: u64) -> u64
        requires { AreTaken self.now.mapping.now self.now.params.now self.now.instances.now x homes.now used }
        ensures { result ≡ taken self.now.mapping.now self.now.params.now self.now.instances.now (first_of self.now.mapping.now x) }
    {
        let first = first_of(self.mapping, x);
        if first == x {
            return used;
        }
        homes[first as usize].base
    }
}

/// Lets a caller know what every mapping keeps.
fn keeps(mapping: &Mapping)
    ensures { IsMapping mapping.now }
{
    let _ = mapping.kinds();
}

/// Numbers for the cells in which the instances are kept.
pub fn cells(alloc: Global, kept: &Kept<'_>) -> Result<Cells, ScanFault>
    requires complete { IsComplete kept.now.program.now kept.now.mapping.now }
    requires keepable { All (IsKeepable kept.now.program.now kept.now.params.now) kept.now.instances.now }
    ensures { NumbersAnswer kept.now.program.now kept.now.mapping.now kept.now.params.now kept.now.instances.now result }
{
    keeps(kept.mapping);
    let count = kept.program.variables().len() as u32;
    let mut homes = Vec::new(alloc);
    let mut used = 0;
    'variables: for x in 0..count {
        let sides = match kept.sides_of(alloc, x) {
            Ok(sides) => sides,
            Err(fault) => return Err(fault),
        };
        let base = kept.base_of(x, &homes, used);
        if opens(kept.mapping, x) {
            used += volume(&sides);
            if used > MOST_CELLS {
                return Err(ScanFault::Limit(Limit::Cells));
            }
        }
        let sides = List::from_vec(sides);
        homes.push(Home { base, sides })?;
    }
    Ok(Cells { homes, count: used })
}
