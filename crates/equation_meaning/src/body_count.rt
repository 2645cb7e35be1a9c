//! How many body points the reductions have that an expression evaluates at a point.

ghost use Rattle.std.specs.Prelude.{◌≡◌, ◌≤◌, ◌^◌, ◌++◌, length, All, Contains};
ghost use Rattle.az_lin.specs.Affine.{IsCoordinate};
ghost use Rattle.az_lin.specs.Substitution.{Point};
ghost use Rattle.az_ast.specs.Term.{term};
ghost use Rattle.equation_meaning.specs.Inner.Counting.{has_reduction, CanCount, IsCountable, TermAnswers, BodyAnswers};
ghost use Rattle.equation_meaning.specs.declared.body_count.CountFault.TheVariants.{Scan};
ghost use Rattle.loop_scan.specs.declared.fault.ScanFault.TheVariants.{Memory};

use az_ast::Expr;
use az_lin::List;
use loop_scan::ScanFault;
use std::alloc::{AllocError, Global};
use value_walk::members;

/// Why there is no count.
#[derive(Debug, Drop)]
pub(crate) enum CountFault {
    /// There are more points than the limit leaves.
    Many,
    Scan(ScanFault),
}

impl From<AllocError> for CountFault {
    ghost from_gives = { λ _ e. e ≡ Scan Memory };

    fn from(_: AllocError) -> CountFault {
        CountFault::Scan(ScanFault::Memory)
    }
}

fn has_reduction(e: &Expr) -> bool
    ensures { result ≡ has_reduction (term e.now) }
{
    match e {
        Expr::Const(_) => false,
        Expr::Index(_) => false,
        Expr::Access(_, _) => false,
        Expr::Neg(e) => has_reduction(e.get()),
        Expr::Bin(_, a, b) => has_reduction(a.get()) || has_reduction(b.get()),
        Expr::Cases(branches) => {
            'branches: for branch in branches.as_slice() {
                if has_reduction(&branch.body) {
                    return true;
                }
            }
            false
        }
        Expr::Reduce(_, _, _, _) => true,
    }
}

/// The points and what the body counts at them, where that is at most `left`.
#[cycle(counting)]
pub(crate) fn body_count(
    alloc: Global,
    body: &Expr,
    z: &[i128],
    points: &[List<i128>],
    left: u64,
) -> Result<u64, CountFault>
    requires each { (k : Point) → Contains points.now k → CanCount (term body.now) (z.now ++ k) }
    requires small { left ≤ 2 ^ 22 }
    ensures { BodyAnswers (term body.now) z.now points.now left result }
{
    let mut count = points.len() as u64;
    if count > left {
        return Err(CountFault::Many);
    }
    if !has_reduction(body) {
        return Ok(count);
    }
    let mut point = Vec::from_slice(alloc, z)?;
    'members: for k in points {
        point.truncate(z.len());
        point.extend_from_slice(k.as_slice())?;
        count += count_of(alloc, body, &point, left - count)?;
    }
    Ok(count)
}

/// What the expression counts at the point, where that is at most `left`.
#[cycle(counting)]
fn count_of(alloc: Global, e: &Expr, z: &[i128], left: u64) -> Result<u64, CountFault>
    requires ready { IsCountable (term e.now) z.now }
    requires narrow { length z.now ≤ 64 }
    requires range { All IsCoordinate z.now }
    requires small { left ≤ 2 ^ 22 }
    ensures { TermAnswers (term e.now) z.now left result }
{
    match e {
        Expr::Const(_) => Ok(0),
        Expr::Index(_) => Ok(0),
        Expr::Access(_, _) => Ok(0),
        Expr::Neg(e) => count_of(alloc, e.get(), z, left),
        Expr::Bin(_, a, b) => {
            let first = count_of(alloc, a.get(), z, left)?;
            let second = count_of(alloc, b.get(), z, left - first)?;
            Ok(first + second)
        }
        Expr::Cases(branches) => {
            'branches: for branch in branches.as_slice() {
                if branch.domain.holds(z) {
                    return count_of(alloc, &branch.body, z, left);
                }
            }
            unreachable!()
        }
        Expr::Reduce(_, _, domain, body) => {
            let points = match members(alloc, domain, z) {
                Ok(points) => points,
                Err(fault) => return Err(CountFault::Scan(fault)),
            };
            body_count(alloc, body.get(), z, points.as_slice(), left)
        }
    }
}
