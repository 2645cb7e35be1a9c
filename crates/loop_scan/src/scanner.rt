//! A scanner gives the members of a domain, one call after another.

ghost use Rattle.std.specs.Prelude.{◌≡◌, ◌≤◌, ◌∷◌, [], length, map, All, Contains, ◌↔◌, IfOk, IfErr, MatchBool};
ghost use Rattle.az_lin.specs.Affine.{IsEntry};
ghost use Rattle.az_lin.specs.Substitution.{Point};
ghost use Rattle.az_ast.specs.Points.{IsIncreasing};
ghost use Rattle.loop_scan.specs.Answers.{ScanAnswers};
ghost use Rattle.loop_scan.specs.Boxes.{AreBoxes};
ghost use Rattle.loop_scan.specs.Nest.Answered.{AllBound, ranges_of};
ghost use Rattle.loop_scan.specs.Nest.Located.{IsScanOver};
ghost use Rattle.loop_scan.specs.Nest.Merges.{IsHead};
ghost use Rattle.loop_scan.specs.Nest.Parts.{IsWalkOver, SomeWalkGives};
ghost use Rattle.loop_scan.specs.Nest.Scans.{points_of, AreWalks, SomeHeadGives};
ghost use Rattle.loop_scan.specs.declared.fault.ScanFault.TheVariants.{Memory};

use crate::ScanFault;
use crate::head::Head;
use crate::located::Located;
use crate::merge::next_point;
use crate::walk::Walk;
use crate::walks::walks;
use az_lin::Domain;
use std::alloc::{AllocError, Global};
use std::marker::Model;

/// One walk goes by itself, which is faster than a merge of one.
#[derive(Debug, Drop)]
pub(crate) enum Walks {
    One(Walk),
    Several(Vec<Head>),
}

#[derive(Debug, Drop)]
pub struct Scanner {
    width: usize,
    walks: Walks,
}

impl Model for Scanner {
    ghost use Rattle.loop_scan.specs.Members.{Scan};

    ghost Value = { Scan };

    ghost use Rattle.loop_scan.specs.Nest.Scans.{points_of, AreWalks};

    ghost view = { λ it. record { width = it.width; to_come = points_of it.walks } };

    ghost invariant = { λ it. AreWalks it.width it.walks };
}

/// The walks with their next points.
fn heads_of(alloc: Global, walks: Vec<Walk>, width: usize) -> Result<Vec<Head>, AllocError>
    requires walks { All (IsWalkOver width) walks.items }
    ensures state { IfOk result (λ heads. All (IsHead width) heads.items) }
    ensures points { (y : Point) → IfOk result (λ heads. SomeHeadGives heads.items y ↔ SomeWalkGives walks.items y) }
{
    let mut left = walks;
    let mut heads = Vec::with_capacity(alloc, left.len())?;
    'walks: while let Some(walk) = left.pop() {
        heads.push(Head::new(walk))?;
    }
    Ok(heads)
}

/// One walk, or the merge of any other number.
fn together(alloc: Global, walks: Vec<Walk>, width: usize) -> Result<Walks, AllocError>
    requires walks { All (IsWalkOver width) walks.items }
    ensures state { IfOk result (AreWalks width) }
    ensures increasing { IfOk result (λ got. IsIncreasing (points_of got)) }
    ensures points { (y : Point) → IfOk result (λ got. Contains (points_of got) y ↔ SomeWalkGives walks.items y) }
{
    let mut walks = walks;
    if walks.len() != 1 {
        return Ok(Walks::Several(heads_of(alloc, walks, width)?));
    }
    match walks.pop() {
        Some(walk) => Ok(Walks::One(walk)),
        None => unreachable!(),
    }
}

impl Scanner {
    /// A scanner of the members of `d` at the parameters, which are its first columns. All memory is
    /// taken here.
    pub fn new(alloc: Global, d: &Domain, params: &[i128]) -> Result<Scanner, ScanFault>
        requires inside { length params.now ≤ d.now.width }
        requires narrow { d.now.width ≤ 64 }
        requires range { All IsEntry params.now }
        ensures { ScanAnswers d.now params.now result }
    {
        let located = Located::new(alloc, d, params)?;
        Scanner::over(alloc, &located)
    }

    /// A scanner of the located domain.
    pub(crate) fn over(alloc: Global, located: &Located) -> Result<Scanner, ScanFault>
        requires narrow { located.now.domain.width ≤ 64 }
        requires boxes { AreBoxes located.now.domain.disjuncts (map ranges_of located.now.boxes.items) }
        requires bounds { AllBound located.now.domain.disjuncts (map ranges_of located.now.boxes.items) }
        ensures ok { IfOk result (IsScanOver located.now.domain) }
        ensures cause { IfErr result (λ fault. fault ≡ Memory) }
    {
        let width = located.domain.width();
        let disjuncts = located.domain.disjuncts();
        let walks = walks(alloc, disjuncts, located.boxes.as_slice(), width)?;
        let walks = together(alloc, walks, width)?;
        Ok(Scanner { width, walks })
    }

    /// How many coordinates a point has.
    pub fn width(&self) -> usize
        ensures { result ≡ self.now.width }
    {
        self.width
    }

    /// Writes the next member into `out`, which has one place for each index. False at the end.
    pub fn next_point(&mut self, out: &mut [i128]) -> bool
        requires { length out.old ≡ self.old.width }
        ensures width { self.new.width ≡ self.old.width }
        ensures point { MatchBool result (self.old.to_come ≡ out.new ∷ self.new.to_come)
            ((self.old.to_come ≡ []) × (self.new.to_come ≡ []) × (out.new ≡ out.old)) }
    {
        match &mut self.walks {
            Walks::One(walk) => {
                let found = walk.advance();
                if found {
                    out.copy_from_slice(walk.point.as_slice());
                }
                found
            }
            Walks::Several(heads) => next_point(heads.as_mut_slice(), self.width, out),
        }
    }
}
