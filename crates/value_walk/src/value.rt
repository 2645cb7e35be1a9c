//! The value of an expression at a point.

ghost use Rattle.std.specs.Prelude.{◌≡◌, ◌<◌, ◌≤◌, [], length, All, IfOk, IfErr, IfSome, IfNone, vec_len};
ghost use Rattle.az_lin.specs.Affine.{IsCoordinate};
ghost use Rattle.az_ast.specs.Operators.{applied};
ghost use Rattle.value_walk.specs.Inner.Codes.{term};
ghost use Rattle.value_walk.specs.Boxes.{IsBox};
ghost use Rattle.value_walk.specs.Inner.Slots.{IsSlot, point_of};
ghost use Rattle.value_walk.specs.Inner.Ready.{IsReadyAt, IsReadySlot, SlotEvaluates, AreStates, IsPending, IsFault, MeansIn, Gives, both};

use crate::boxes::members;
use crate::code::Code;
use crate::reader::Reader;
use crate::slot::{Slot, State};
use az_ast::{Op, apply_op, identity_of, wrap};
use az_lin::{Domain, List};
use loop_scan::ScanFault;
use smallvec::SmallVec;
use sqlite_items::{Items, at};
use std::alloc::Global;

/// The operator's value where both operands are there.
fn combined(op: Op, left: Option<i64>, right: Option<i64>) -> Option<i64>
    ensures { result ≡ both (applied op) left right }
{
    match left {
        Some(a) => match right {
            Some(b) => Some(apply_op(op, a, b)),
            None => None,
        },
        None => None,
    }
}

impl Reader<'_> {
    /// The points of a reduction that is evaluated.
    fn body_points(
        &self,
        alloc: Global,
        extra: u32,
        domain: &Domain,
        z: &[i128],
    ) -> Result<List<List<i128>>, ScanFault>
        requires columns { length z.now ≤ domain.now.width }
        requires narrow { domain.now.width ≤ 64 }
        requires range { All IsCoordinate z.now }
        requires evaluated { SlotEvaluates self.now.scene.now self.now.slot extra domain.now z.now }
        ensures ok { IfOk result (λ points. IsBox domain.now z.now points) }
        ensures cause { IfErr result (IsFault self.now.scene.now self.now.slot) }
    {
        match members(alloc, domain, z) {
            Ok(points) => Ok(points),
            Err(fault) => Err(fault),
        }
    }

    /// The value at the point, or none where it reads points whose values aren't known: these are
    /// put among the reads, in order of evaluation.
    pub(crate) fn value_of(
        &self,
        alloc: Global,
        e: &Code,
        z: &[i128],
        states: &[Items<State>],
        reads: &mut Vec<Slot>,
    ) -> Result<Option<i64>, ScanFault>
        requires ready { IsReadyAt self.now.scene.now self.now.slot (term e.now) z.now }
        requires narrow { length z.now ≤ 64 }
        requires range { All IsCoordinate z.now }
        requires states { AreStates self.now.scene.now states.now }
        requires pending { All (IsPending self.now.scene.now self.now.slot states.now) reads.old.items }
        ensures pending { All (IsPending self.now.scene.now self.now.slot states.now) reads.new.items }
        ensures more { vec_len reads.old ≤ vec_len reads.new }
        ensures value { IfOk result (λ found. IfSome found (Gives self.now.scene.now (term e.now) z.now)) }
        ensures none { IfOk result (λ found. IfNone found (0 < vec_len reads.new)) }
        ensures cause { IfErr result (IsFault self.now.scene.now self.now.slot) }
    {
        match e {
            Code::Const(v) => Ok(Some(*v)),
            Code::Index(row) => Ok(Some(wrap(row.value(z)))),
            Code::Access(x, f) => {
                let mut image = [0; 8];
                let image = &mut image[..f.len()];
                f.apply(z, image);
                match self.read(states, *x, image, reads) {
                    Ok(found) => Ok(found),
                    Err(_) => Err(ScanFault::Memory),
                }
            }
            Code::Neg(e) => {
                let value = self.value_of(alloc, e.get(), z, states, reads)?;
                Ok(combined(Op::Sub, Some(0), value))
            }
            Code::Bin(op, a, b) => {
                let left = self.value_of(alloc, a.get(), z, states, reads)?;
                let right = self.value_of(alloc, b.get(), z, states, reads)?;
                Ok(combined(*op, left, right))
            }
            Code::Cases(branches) => {
                'branches: for branch in branches.as_slice() {
                    if branch.domain.holds(z) {
                        return self.value_of(alloc, &branch.body, z, states, reads);
                    }
                }
                unreachable!()
            }
            Code::Reduce(op, extra, domain, body) => {
                let points = self.body_points(alloc, *extra, domain, z)?;
                let mut point = Vec::from_slice(alloc, z)?;
                let mut total = Some(identity_of(*op));
                'points: for k in points.as_slice() {
                    point.truncate(z.len());
                    point.extend_from_slice(k.as_slice())?;
                    let value = self.value_of(alloc, body.get(), &point, states, reads)?;
                    total = combined(*op, total, value);
                }
                Ok(total)
            }
        }
    }

    /// The value of the slot's own point.
    pub(crate) fn value(
        &self,
        alloc: Global,
        states: &[Items<State>],
        reads: &mut Vec<Slot>,
    ) -> Result<Option<i64>, ScanFault>
        requires slot { IsSlot self.now.scene.now.points.now self.now.slot }
        requires ready { IsReadySlot self.now.scene.now self.now.slot }
        requires states { AreStates self.now.scene.now states.now }
        requires empty { reads.old.items ≡ [] }
        ensures pending { All (IsPending self.now.scene.now self.now.slot states.now) reads.new.items }
        ensures value { IfOk result (λ found. IfSome found (MeansIn self.now.scene.now self.now.slot.variable (point_of self.now.scene.now.points.now self.now.slot))) }
        ensures none { IfOk result (λ found. IfNone found (0 < vec_len reads.new)) }
        ensures cause { IfErr result (IsFault self.now.scene.now self.now.slot) }
    {
        let Some(body) = at(self.scene.bodies, self.slot.variable as usize) else {
            unreachable!()
        };
        let mut z: SmallVec<i128, 16> = SmallVec::new(alloc);
        z.extend_from_slice(self.scene.params)?;
        z.extend_from_slice(self.scene.point(self.slot))?;
        self.value_of(alloc, body, z.as_slice(), states, reads)
    }
}
