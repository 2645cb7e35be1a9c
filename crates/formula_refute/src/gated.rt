//! Systems decided by several workers at once, with the answer of one.

ghost use Rattle.std.specs.Prelude.{◌≡◌, ◌≤◌, ◌<◌, ℕ, All, Some, IfOk, IfErr, length, drop, slice_index_or};
ghost use Rattle.formula_refute.specs.Claims.{claim, IsOver};
ghost use Rattle.formula_refute.specs.Answers.{GivesFront, GivesCaseFront};
ghost use Rattle.formula_refute.specs.Cases.{systems, most_systems};
ghost use Rattle.formula_refute.specs.Fronts.{IsNarrow, IsOnlyFront};
ghost use Rattle.formula_refute.specs.Inner.Shares.{InTurn, IsShare, IsEmptyShare};
ghost use Rattle.formula_refute.specs.declared.fault.RefuteFault.TheVariants.{Memory};

use crate::case_list::{CaseList, GivenSystems};
use crate::formula_cases::FormulaCases;
use crate::share::Share;
use crate::{CaseGate, Formula, Front, RefuteFault, Stop};
use az_lin::{Conj, Derivation, Limit, List};
use std::alloc::Global;
use std::collections::VecDeque;
use std::thread;
use std::thread::Threads;

fn empty_shares(alloc: Global, count: usize) -> Result<VecDeque<Share>, RefuteFault>
    ensures count { IfOk result (λ shares. length shares.items ≡ count) }
    ensures empty { IfOk result (λ shares. All IsEmptyShare shares.items) }
    ensures cause { IfErr result (λ fault. fault ≡ Memory) }
{
    let mut shares = VecDeque::new(alloc);
    for _ in 0..count {
        shares.push_back(Share::new(alloc))?;
    }
    Ok(shares)
}

/// Each worker fills its share.
fn fill_shares<R: Threads + Sync, C: CaseList + Sync, G: CaseGate + Sync>(
    rt: &R,
    alloc: Global,
    cases: &C,
    gate: &G,
    shares: &mut [Share],
)
    requires empty { All IsEmptyShare shares.old }
    requires all { C.valid cases.now }
    requires few { length (C.list cases.now) ≤ most_systems }
    requires some { 1 ≤ length shares.old }
    requires at_most { length shares.old ≤ 64 }
    ensures count { length shares.new ≡ length shares.old }
    ensures filled { (k : ℕ) (d : Share) → k < length shares.old → IsShare (length shares.old) (drop k (C.list cases.now)) (slice_index_or shares.new k d) }
{
    let workers = shares.len();
    thread::for_each_mut(
        rt,
        shares,
        workers,
        &|worker, share| { share.fill(alloc, cases, gate, worker, workers) },
    );
}

/// The front that ends so, unless memory ran out there.
fn ended(derivations: Vec<Derivation>, end: Option<Stop>) -> Result<Front, RefuteFault>
    ensures ok { IfOk result (λ front. (front.derivations ≡ derivations.items) × (end ≡ Some front.stop)) }
    ensures cause { IfErr result (λ fault. fault ≡ Memory) }
{
    match end {
        Some(stop) => Ok(Front {
            derivations: List::from_vec(derivations),
            stop,
        }),
        None => Err(RefuteFault::Memory),
    }
}

/// The derivations of the workers in turn, up to the first share that has none left.
fn joined<C: CaseList>(
    alloc: Global,
    cases: &C,
    mut shares: VecDeque<Share>,
) -> Result<Front, RefuteFault>
    requires all { C.valid cases.now }
    requires some { 1 ≤ length shares.items }
    requires filled { InTurn (length shares.items) (C.list cases.now) shares.items }
    ensures { GivesFront (C.list cases.now) result }
{
    let mut derivations = Vec::new(alloc);
    'cases: for _case in 0..cases.count() {
        let Some(mut share) = shares.pop_front() else {
            unreachable!()
        };
        match share.derivations.pop_front() {
            Some(derivation) => derivations.push(derivation)?,
            None => return ended(derivations, share.end),
        }
        shares.push_back(share)?;
    }
    Ok(Front {
        derivations: List::from_vec(derivations),
        stop: Stop::End,
    })
}

fn shared_front<R: Threads + Sync, C: CaseList + Sync, G: CaseGate + Sync>(
    rt: &R,
    alloc: Global,
    cases: &C,
    workers: usize,
    gate: &G,
) -> Result<Front, RefuteFault>
    requires all { C.valid cases.now }
    requires few { length (C.list cases.now) ≤ most_systems }
    requires some { 1 ≤ workers }
    requires at_most { workers ≤ 64 }
    ensures { GivesFront (C.list cases.now) result }
{
    let mut shares = empty_shares(alloc, workers)?;
    fill_shares(rt, alloc, cases, gate, shares.make_contiguous());
    joined(alloc, cases, shares)
}

/// Decides the systems as `decide_front` does, in so many threads. Each worker decides every so
/// many systems from the one with its number on, and tells the gate before each.
pub fn decide_front_gated<R: Threads + Sync, G: CaseGate + Sync>(
    rt: &R,
    alloc: Global,
    systems: &[Conj],
    workers: u32,
    gate: &G,
) -> Result<Front, RefuteFault>
    requires narrow { All IsNarrow systems.now }
    requires few { length systems.now ≤ most_systems }
    requires some { 1 ≤ workers }
    requires at_most { workers ≤ 64 }
    ensures answer { GivesFront systems.now result }
    ensures only { IfOk result (IsOnlyFront systems.now) }
{
    shared_front(rt, alloc, &GivenSystems { systems }, workers as usize, gate)
}

fn shared_cases<R: Threads + Sync, G: CaseGate + Sync>(
    rt: &R,
    alloc: Global,
    width: usize,
    f: &Formula,
    workers: usize,
    gate: &G,
) -> Result<Front, RefuteFault>
    requires narrow { width ≤ 4096 }
    requires widths { IsOver width (claim f.now) }
    requires some { 1 ≤ workers }
    requires at_most { workers ≤ 64 }
    ensures { GivesCaseFront (systems width (claim f.now)) result }
{
    let Some(cases) = FormulaCases::new(width, f) else {
        return Err(RefuteFault::Limit(Limit::Systems));
    };
    shared_front(rt, alloc, &cases, workers, gate)
}

/// Decides the cases of a formula as `decide_front_gated` decides their systems. Each worker makes
/// its systems itself, one after another, so that no more than one a worker is held.
pub fn decide_cases_gated<R: Threads + Sync, G: CaseGate + Sync>(
    rt: &R,
    alloc: Global,
    width: usize,
    f: &Formula,
    workers: u32,
    gate: &G,
) -> Result<Front, RefuteFault>
    requires narrow { width ≤ 4096 }
    requires widths { IsOver width (claim f.now) }
    requires some { 1 ≤ workers }
    requires at_most { workers ≤ 64 }
    ensures answer { GivesCaseFront (systems width (claim f.now)) result }
    ensures only { IfOk result (IsOnlyFront (systems width (claim f.now))) }
{
    shared_cases(rt, alloc, width, f, workers as usize, gate)
}
