//! The walks through the points of a domain's disjuncts.

ghost use Rattle.std.specs.Prelude.{◌≡◌, ◌≤◌, ◌++◌, ◌∷◌, [], List, OnOk, length, map, All, IsTrue, IfOk, IfErr, ◌↔◌};
ghost use Rattle.std.specs.List.{AllZip};
ghost use Rattle.az_lin.specs.Affine.{Polyhedron, IsOver, Holds};
ghost use Rattle.az_lin.specs.Substitution.{Point};
ghost use Rattle.loop_scan.specs.Boxes.{IsBox, AreBoxes};
ghost use Rattle.loop_scan.specs.Nest.Indices.{Bounds};
ghost use Rattle.loop_scan.specs.Hulls.{HasNumber};
ghost use Rattle.loop_scan.specs.Nest.Levels.{IsIn, HasCoordinates};
ghost use Rattle.loop_scan.specs.Nest.Nests.{IsNest, Accepts};
ghost use Rattle.loop_scan.specs.Nest.Answered.{AllBound, ranges_of};
ghost use Rattle.loop_scan.specs.Nest.Parts.{IsWalkOver, IsWalkOf, AreWalksOf};
ghost use Rattle.loop_scan.specs.declared.fault.ScanFault.TheVariants.{Memory};

use crate::ScanFault;
use crate::nest::Nest;
use crate::range::Range;
use crate::walk::Walk;
use az_lin::Conj;
use std::alloc::Global;

/// Whether the box of the ranges has a point.
pub(crate) fn is_full(ranges: &[Range]) -> bool
    ensures { IsTrue result ↔ All HasNumber ranges.now }
{
    ranges.iter().all(|range| range.low <= range.high)
}

/// The nest that accepts the points of the system, which lie in the box.
fn nest_of(alloc: Global, system: &Conj, ranges: &[Range], width: usize) -> Result<Nest, ScanFault>
    requires over { IsOver width system.now }
    requires narrow { width ≤ 64 }
    requires indices { length ranges.now ≡ width }
    requires coordinates { All HasCoordinates ranges.now }
    requires points { (y : Point) → length y ≡ width → Holds system.now y → AllZip IsIn ranges.now y }
    ensures state { IfOk result (IsNest width) }
    ensures points { (y : Point) → length y ≡ width → IfOk result (λ nest. Accepts nest y ↔ Holds system.now y) }
    ensures cause { IfErr result (λ fault. fault ≡ Memory) }
{
    let mut nest = Nest::new(alloc, ranges)?;
    'rows: for row in system.rows() {
        nest.add(alloc, width, row)?;
    }
    nest.narrow(alloc, system, width)?;
    Ok(nest)
}

/// The walk through the points of the system, or none where it has no point.
fn walk_of(
    alloc: Global,
    system: &Conj,
    ranges: &[Range],
    width: usize,
) -> Result<Option<Walk>, ScanFault>
    requires over { IsOver width system.now }
    requires narrow { width ≤ 64 }
    requires indices { length ranges.now ≡ width }
    requires coordinates { All HasCoordinates ranges.now }
    requires points { (y : Point) → length y ≡ width → Holds system.now y → AllZip IsIn ranges.now y }
    ensures ok { IfOk result (IsWalkOf width system.now) }
    ensures cause { IfErr result (λ fault. fault ≡ Memory) }
{
    let nest = nest_of(alloc, system, ranges, width)?;
    if nest.refuted {
        return Ok(None);
    }
    Ok(Some(Walk::new(alloc, nest.levels)?))
}

/// Adds the walk through the points of one more disjunct, if it may have some.
fn add_walk(
    alloc: Global,
    walks: &mut Vec<Walk>,
    system: &Conj,
    one: &Option<Vec<Range>>,
    width: usize,
) -> Result<(), ScanFault>
    requires over { IsOver width system.now }
    requires narrow { width ≤ 64 }
    requires box_of { IsBox system.now (ranges_of one.now) }
    requires bounds { Bounds system.now (ranges_of one.now) }
    ensures ok { (disjuncts : List Polyhedron) → AreWalksOf width disjuncts walks.old.items → OnOk result (AreWalksOf width (disjuncts ++ system.now ∷ []) walks.new.items) }
    ensures cause { IfErr result (λ fault. fault ≡ Memory) }
{
    let Some(ranges) = one else {
        return Ok(());
    };
    if !is_full(ranges.as_slice()) {
        return Ok(());
    }
    let Some(walk) = walk_of(alloc, system, ranges.as_slice(), width)? else {
        return Ok(());
    };
    walks.push(walk)?;
    Ok(())
}

/// The walks through the points of all disjuncts.
pub(crate) fn walks(
    alloc: Global,
    disjuncts: &[Conj],
    boxes: &[Option<Vec<Range>>],
    width: usize,
) -> Result<Vec<Walk>, ScanFault>
    requires over { All (IsOver width) disjuncts.now }
    requires narrow { width ≤ 64 }
    requires boxes { AreBoxes disjuncts.now (map ranges_of boxes.now) }
    requires bounds { AllBound disjuncts.now (map ranges_of boxes.now) }
    ensures ok { IfOk result (λ got. AreWalksOf width disjuncts.now got.items) }
    ensures cause { IfErr result (λ fault. fault ≡ Memory) }
{
    let mut walks = Vec::with_capacity(alloc, disjuncts.len())?;
    'disjuncts: for place in 0..disjuncts.len() {
        add_walk(alloc, &mut walks, &disjuncts[place], &boxes[place], width)?;
    }
    Ok(walks)
}
