//! A domain at given parameters, with the boxes of its disjuncts.

ghost use Rattle.std.specs.Prelude.{◌≡◌, ◌≤◌, length, All, IsTrue, ◌↔◌};
ghost use Rattle.az_lin.specs.Affine.{IsEntry, IsCoordinate};
ghost use Rattle.loop_scan.specs.Nest.Located.{PutAnswers, LocateAnswers};

use crate::ScanFault;
use crate::boxes::boxes;
use crate::index_range::is_coordinate;
use crate::range::Range;
use az_lin::{Domain, Limit, LinFault};
use row_columns::domain_at_params;
use std::alloc::Global;

#[derive(Debug, Drop)]
pub(crate) struct Located {
    pub(crate) domain: Domain,
    pub(crate) boxes: Vec<Option<Vec<Range>>>,
}

/// The domain over its indices, with the parameters put in.
fn put(alloc: Global, d: &Domain, params: &[i128]) -> Result<Domain, ScanFault>
    requires inside { length params.now ≤ d.now.width }
    requires narrow { d.now.width ≤ 64 }
    requires range { All IsEntry params.now }
    ensures { PutAnswers d.now params.now result }
{
    match domain_at_params(alloc, d, params) {
        Ok(domain) => Ok(domain),
        Err(LinFault::Entry) => Err(ScanFault::Entry),
        Err(LinFault::Memory) => Err(ScanFault::Memory),
        Err(_) => unreachable!(),
    }
}

fn are_coordinates(numbers: &[i128]) -> bool
    ensures { IsTrue result ↔ All IsCoordinate numbers.now }
{
    numbers.iter().all(|number| is_coordinate(*number))
}

impl Located {
    /// Puts the parameters in, and finds the boxes.
    pub(crate) fn new(alloc: Global, d: &Domain, params: &[i128]) -> Result<Located, ScanFault>
        requires inside { length params.now ≤ d.now.width }
        requires narrow { d.now.width ≤ 64 }
        requires range { All IsEntry params.now }
        ensures { LocateAnswers d.now params.now result }
    {
        let domain = put(alloc, d, params)?;
        if !are_coordinates(params) {
            return Err(ScanFault::Limit(Limit::Coordinate));
        }
        let boxes = boxes(alloc, domain.disjuncts(), domain.width())?;
        Ok(Located { domain, boxes })
    }
}
