//! The members of a domain in a list.

ghost use Rattle.std.specs.Prelude.{◌≡◌, ◌≤◌, ◌++◌, length, All, IfOk, IfErr};
ghost use Rattle.az_lin.specs.Affine.{IsEntry};
ghost use Rattle.loop_scan.specs.Answers.{PointsAnswers, IsUnrefused};
ghost use Rattle.loop_scan.specs.declared.fault.ScanFault.TheVariants.{Memory};

use crate::hull::is_small;
use crate::located::Located;
use crate::{ScanFault, Scanner};
use az_lin::{Domain, Limit, List};
use std::alloc::Global;

/// All points that the scanner has to come.
fn collected(alloc: Global, scanner: Scanner) -> Result<List<List<i128>>, ScanFault>
    ensures ok { IfOk result (λ points. points ≡ scanner.to_come) }
    ensures cause { IfErr result (λ fault. fault ≡ Memory) }
{
    let mut scanner = scanner;
    let mut point = vec![in alloc; 0; scanner.width()]?;
    let mut points = Vec::new(alloc);
    'points: while scanner.next_point(point.as_mut_slice()) {
        points.push(List::from_vec(Vec::from_slice(alloc, point.as_slice())?))?;
    }
    Ok(List::from_vec(points))
}

/// The members of `d` at the parameters, which are its first columns, where the hull of its boxes
/// has at most 2^22 points.
pub fn box_points(alloc: Global, d: &Domain, params: &[i128]) -> Result<List<List<i128>>, ScanFault>
    requires inside { length params.now ≤ d.now.width }
    requires narrow { d.now.width ≤ 64 }
    requires range { All IsEntry params.now }
    ensures answer { PointsAnswers d.now params.now result }
    ensures only { IfOk result (λ _. IsUnrefused d.now params.now) }
{
    let located = Located::new(alloc, d, params)?;
    if !is_small(alloc, located.boxes.as_slice(), located.domain.width())? {
        return Err(ScanFault::Limit(Limit::BoxPoints));
    }
    collected(alloc, Scanner::over(alloc, &located)?)
}
