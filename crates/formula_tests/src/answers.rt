//! Each entry of the table through all calls: its cases, their refutation in one go, and their
//! decision one after another and by 1, 2 and 7 workers, with systems that are made before and by
//! the workers.

ghost use Rattle.std.specs.Prelude.{◌≤◌, All, IfOk, length};
ghost use Rattle.formula_refute.specs.Cases.{most_systems};
ghost use Rattle.formula_refute.specs.Fronts.{IsNarrow};

use crate::table::{
    CHOICES, CONSTANTS, Entry, GREAT_NUMBERS, INTERVALS, NOTHING, Numbers, PLANES, ROWS, Wanted,
};
use crate::{Sign, formula};
use az_lin::{Conj, Derivation, List, RatPoint, Row, Step};
use formula_refute::{
    Answer, CaseGate, Front, RefuteFault, Stop, cases, decide_cases_gated, decide_front,
    decide_front_gated, refute,
};
use std::alloc::Global;
use std::thread::Threads;

/// A gate that holds nobody.
pub(crate) struct Open;

impl CaseGate for Open {
    fn before_case(&self, worker: u32, case_no: u32) {
        let _ = worker;
        let _ = case_no;
    }
}

pub(crate) fn is_row(row: &Row, numbers: &[i128]) -> bool {
    match numbers.split_last() {
        Some((konst, coefs)) => row.konst() == *konst && row.coefs() == coefs,
        None => false,
    }
}

fn is_system(system: &Conj, width: usize, rows: &[&'static [i128]]) -> bool {
    if system.width() != width || system.rows().len() != rows.len() {
        return false;
    }
    for (row, numbers) in system.rows().iter().zip(rows) {
        if !is_row(row, numbers) {
            return false;
        }
    }
    true
}

fn are_cases(systems: &[Conj], entry: &Entry) -> bool {
    if systems.len() != entry.cases.len() {
        return false;
    }
    for (system, rows) in systems.iter().zip(entry.cases) {
        if !is_system(system, entry.width, rows) {
            return false;
        }
    }
    true
}

fn are_steps(steps: &[Step], wanted: &[Numbers]) -> bool {
    if steps.len() != wanted.len() {
        return false;
    }
    for (step, wanted) in steps.iter().zip(wanted) {
        if (step.a, step.i, step.b, step.j, step.g) != *wanted {
            return false;
        }
    }
    true
}

fn are_derivations(derivations: &[Derivation], wanted: &[&'static [Numbers]]) -> bool {
    if derivations.len() != wanted.len() {
        return false;
    }
    for (derivation, wanted) in derivations.iter().zip(wanted) {
        if !are_steps(derivation.steps.as_slice(), wanted) {
            return false;
        }
    }
    true
}

fn is_point(point: &RatPoint, nums: &[i128], den: i128) -> bool {
    point.nums.as_slice() == nums && point.den == den
}

fn is_answer(answer: &Result<Answer, RefuteFault>, wanted: &Wanted) -> bool {
    match answer {
        Ok(Answer::Yes(derivations)) => match wanted {
            Wanted::Yes(steps) => are_derivations(derivations.as_slice(), steps),
            _ => false,
        },
        Ok(Answer::No { case_no, point }) => match wanted {
            Wanted::No(case, nums, den) => case_no == case && is_point(point, nums, *den),
            _ => false,
        },
        Err(RefuteFault::Overflow { case_no }) => match wanted {
            Wanted::Overflow(case) => case_no == case,
            _ => false,
        },
        Err(_) => false,
    }
}

fn is_front(front: &Front, wanted: &Wanted) -> bool {
    let count = front.derivations.len();
    match &front.stop {
        Stop::End => match wanted {
            Wanted::Yes(steps) => are_derivations(front.derivations.as_slice(), steps),
            _ => false,
        },
        Stop::Point(point) => match wanted {
            Wanted::No(case, nums, den) => count == *case as usize && is_point(point, nums, *den),
            _ => false,
        },
        Stop::Overflow => match wanted {
            Wanted::Overflow(case) => count == *case as usize,
            _ => false,
        },
        Stop::Rows => false,
    }
}

/// The systems of the formula's cases.
pub(crate) fn systems_of(
    alloc: Global,
    width: usize,
    signs: &[Sign],
) -> Result<List<Conj>, RefuteFault>
    ensures narrow { IfOk result (All IsNarrow) }
    ensures few { IfOk result (λ systems. length systems ≤ most_systems) }
{
    let f = formula(alloc, width, signs)?;
    if width > 4096 {
        return Err(RefuteFault::Entry);
    }
    cases(alloc, width, &f)
}

/// Whether so many workers, each of which makes its own cases, answer as they should.
fn is_made_right<R: Threads + Sync>(
    rt: &R,
    alloc: Global,
    entry: &Entry,
    workers: u32,
) -> Result<bool, RefuteFault>
    requires some { 1 ≤ workers }
    requires at_most { workers ≤ 64 }
{
    let f = formula(alloc, entry.width, entry.signs)?;
    if entry.width > 4096 {
        return Ok(false);
    }
    let front = decide_cases_gated(rt, alloc, entry.width, &f, workers, &Open)?;
    Ok(is_front(&front, &entry.wanted))
}

fn is_entry<R: Threads + Sync>(rt: &R, alloc: Global, entry: &Entry) -> Result<bool, RefuteFault> {
    let f = formula(alloc, entry.width, entry.signs)?;
    if entry.width > 4096 || !is_answer(&refute(alloc, entry.width, &f), &entry.wanted) {
        return Ok(false);
    }
    let systems = systems_of(alloc, entry.width, entry.signs)?;
    let systems = systems.as_slice();
    if !are_cases(systems, entry) || !is_front(&decide_front(alloc, systems)?, &entry.wanted) {
        return Ok(false);
    }
    for workers in [1, 2, 7] {
        let front = decide_front_gated(rt, alloc, systems, workers, &Open)?;
        if !is_front(&front, &entry.wanted) || !is_made_right(rt, alloc, entry, workers)? {
            return Ok(false);
        }
    }
    Ok(true)
}

/// How many entries are answered as they should be, before the first that is not.
fn right<R: Threads + Sync>(
    rt: &R,
    alloc: Global,
    entries: &[Entry],
) -> Result<usize, RefuteFault> {
    for place in 0..entries.len() {
        if !is_entry(rt, alloc, &entries[place])? {
            return Ok(place);
        }
    }
    Ok(entries.len())
}

#[test]
fn answers_single_rows(rt: HostRuntime) -> Result<(), RefuteFault> {
    let alloc = rt.alloc();
    assert_eq!(rt; right(&rt, alloc, ROWS)?, 6);
    Ok(())
}

#[test]
fn answers_all_and_any_of_nothing(rt: HostRuntime) -> Result<(), RefuteFault> {
    let alloc = rt.alloc();
    assert_eq!(rt; right(&rt, alloc, NOTHING)?, 7);
    Ok(())
}

#[test]
fn answers_two_rows(rt: HostRuntime) -> Result<(), RefuteFault> {
    let alloc = rt.alloc();
    assert_eq!(rt; right(&rt, alloc, INTERVALS)?, 6);
    Ok(())
}

#[test]
fn answers_several_cases_in_order(rt: HostRuntime) -> Result<(), RefuteFault> {
    let alloc = rt.alloc();
    assert_eq!(rt; right(&rt, alloc, CHOICES)?, 6);
    Ok(())
}

#[test]
fn answers_rows_without_a_coefficient(rt: HostRuntime) -> Result<(), RefuteFault> {
    let alloc = rt.alloc();
    assert_eq!(rt; right(&rt, alloc, CONSTANTS)?, 2);
    Ok(())
}

#[test]
fn answers_two_columns(rt: HostRuntime) -> Result<(), RefuteFault> {
    let alloc = rt.alloc();
    assert_eq!(rt; right(&rt, alloc, PLANES)?, 6);
    Ok(())
}

#[test]
fn names_the_case_that_leaves_128_bits(rt: HostRuntime) -> Result<(), RefuteFault> {
    let alloc = rt.alloc();
    assert_eq!(rt; right(&rt, alloc, GREAT_NUMBERS)?, 1);
    Ok(())
}
