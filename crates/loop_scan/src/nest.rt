//! The nest of levels that rows make.

ghost use Rattle.std.specs.Prelude.{◌≡◌, ◌<◌, length, take, slice_index, All, pos, false, OnOk, IfOk, IfErr, ◌↔◌};
ghost use Rattle.std.specs.List.{AllZip};
ghost use Rattle.az_lin.specs.Affine.{IsAtLeastZero};
ghost use Rattle.az_lin.specs.Substitution.{Point};
ghost use Rattle.loop_scan.specs.Nest.Levels.{IsIn, HasCoordinates};
ghost use Rattle.loop_scan.specs.Nest.Nests.{IsNest, Accepts, AcceptsMore, IsLastColumn};
ghost use Rattle.loop_scan.specs.declared.fault.ScanFault.TheVariants.{Memory};

use crate::ScanFault;
use crate::bound::Bound;
use crate::level::Level;
use crate::range::Range;
use az_lin::{LinFault, Row};
use std::alloc::{AllocError, Global};

/// A level for each index. A refuted nest holds no point.
#[derive(Debug, Drop)]
pub(crate) struct Nest {
    pub(crate) levels: Vec<Level>,
    pub(crate) refuted: bool,
}

/// The column of the last coefficient that isn't 0.
pub(crate) fn last_column(coefs: &[i128]) -> Option<usize>
    ensures { IsLastColumn coefs.now (length coefs.now) result }
{
    let mut last = None;
    'columns: for column in 0..coefs.len() {
        if coefs[column] != 0 {
            last = Some(column);
        }
    }
    last
}

/// The row over the columns before one.
fn earlier(alloc: Global, row: &Row, column: usize) -> Result<Row, ScanFault>
    requires inside { column < length row.now.coefs }
    ensures ok { IfOk result (λ rest. rest ≡ record { coefs = take column row.now.coefs; konst = row.now.konst }) }
    ensures cause { IfErr result (λ fault. fault ≡ Memory) }
{
    match Row::new(alloc, &row.coefs()[..column], row.konst()) {
        Ok(rest) => Ok(rest),
        Err(LinFault::Memory) => Err(ScanFault::Memory),
        Err(_) => unreachable!(),
    }
}

impl Nest {
    /// The nest of these ranges, without any row.
    pub(crate) fn new(alloc: Global, ranges: &[Range]) -> Result<Nest, AllocError>
        requires coordinates { All HasCoordinates ranges.now }
        ensures state { IfOk result (IsNest (length ranges.now)) }
        ensures points { (y : Point) → IfOk result (λ nest. Accepts nest y ↔ AllZip IsIn ranges.now y) }
    {
        let mut levels = Vec::with_capacity(alloc, ranges.len())?;
        'levels: for range in ranges {
            levels.push(Level {
                range: *range,
                bounds: Vec::new(alloc),
            })?;
        }
        Ok(Nest {
            levels,
            refuted: false,
        })
    }

    /// Adds a row, which bounds the index of its last column after the earlier ones.
    pub(crate) fn add(&mut self, alloc: Global, width: usize, row: &Row) -> Result<(), ScanFault>
        requires state { IsNest width self.old }
        requires width { length row.now.coefs ≡ width }
        ensures state { OnOk result (IsNest width self.new) }
        ensures points { (y : Point) → length y ≡ width → OnOk result (AcceptsMore self.old self.new row.now y) }
        ensures cause { IfErr result (λ fault. fault ≡ Memory) }
    {
        match last_column(row.coefs()) {
            Some(column) => self.bind(alloc, row, column),
            None => {
                if row.konst() < 0 {
                    self.refuted = true;
                }
                Ok(())
            }
        }
    }

    /// Adds the bound that a row gives on its last column.
    fn bind(&mut self, alloc: Global, row: &Row, column: usize) -> Result<(), ScanFault>
        requires state { IsNest (length row.now.coefs) self.old }
        requires last { IsLastColumn row.now.coefs (length row.now.coefs) (Some column) }
        ensures state { OnOk result (IsNest (length row.now.coefs) self.new) }
        ensures points { (y : Point) → length y ≡ length row.now.coefs → OnOk result (AcceptsMore self.old self.new row.now y) }
        ensures cause { IfErr result (λ fault. fault ≡ Memory) }
    {
        let rest = earlier(alloc, row, column)?;
        let bound = Bound {
            coef: row.coef(column),
            rest,
        };
        self.levels[column].bounds.push(bound)?;
        Ok(())
    }
}
