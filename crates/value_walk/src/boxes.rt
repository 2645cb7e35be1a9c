//! The members of a domain over given outer coordinates.

ghost use Rattle.std.specs.Prelude.{◌≤◌, length, All, IfOk, IfErr};
ghost use Rattle.az_lin.specs.Affine.{IsEntry};
ghost use Rattle.loop_scan.specs.Answers.{IsUnrefused};
ghost use Rattle.value_walk.specs.Boxes.{IsBox, IsBoxFault};

use az_lin::{Domain, List};
use loop_scan::{ScanFault, box_points};
use std::alloc::Global;

/// The points of the box that the domain holds.
pub fn members(
    alloc: Global,
    domain: &Domain,
    outer: &[i128],
) -> Result<List<List<i128>>, ScanFault>
    requires columns { length outer.now ≤ domain.now.width }
    requires narrow { domain.now.width ≤ 64 }
    requires entries { All IsEntry outer.now }
    ensures ok { IfOk result (λ points. IsBox domain.now outer.now points) }
    ensures only { IfOk result (λ _. IsUnrefused domain.now outer.now) }
    ensures cause { IfErr result (λ fault. IsBoxFault domain.now outer.now fault) }
{
    match box_points(alloc, domain, outer) {
        Ok(points) => Ok(points),
        Err(fault) => Err(fault),
    }
}
