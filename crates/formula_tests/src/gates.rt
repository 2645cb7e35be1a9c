//! Two workers that meet show that two threads decide.

use crate::Sign::{All, Any, Row};
use crate::answers::systems_of;
use crate::{Sign, formula};
use formula_refute::{CaseGate, RefuteFault, decide_cases_gated, decide_front_gated};
use std::sync::atomic::{AtomicBool, Ordering};

/// Holds each of two workers until the other has come.
#[derive(Drop)]
struct Meeting {
    came: [AtomicBool; 2],
    gave_up: AtomicBool,
}

impl Meeting {
    fn wait_for(&self, other: &AtomicBool) {
        for _ in 0..1u64 << 28 {
            if other.load(Ordering::SeqCst) {
                return;
            }
        }
        self.gave_up.store(true, Ordering::SeqCst);
    }
}

impl CaseGate for Meeting {
    fn before_case(&self, worker: u32, case_no: u32) {
        let _ = case_no;
        let [first, second] = &self.came;
        if worker == 0 {
            first.store(true, Ordering::SeqCst);
            self.wait_for(second);
        } else {
            second.store(true, Ordering::SeqCst);
            self.wait_for(first);
        }
    }
}

impl Meeting {
    fn new() -> Meeting {
        Meeting {
            came: [AtomicBool::new(false), AtomicBool::new(false)],
            gave_up: AtomicBool::new(false),
        }
    }

    /// Whether both workers came, and neither ran out of turns.
    fn took_place(&self) -> bool {
        let [first, second] = &self.came;
        first.load(Ordering::SeqCst)
            && second.load(Ordering::SeqCst)
            && !self.gave_up.load(Ordering::SeqCst)
    }
}

/// Two empty intervals.
const INTERVALS: [Sign; 7] = [
    Any(2),
    All(2),
    Row(&[1, -1]),
    Row(&[-1, 0]),
    All(2),
    Row(&[1, -2]),
    Row(&[-1, 0]),
];

#[test]
fn two_workers_meet_before_their_first_cases(rt: HostRuntime) -> Result<(), RefuteFault> {
    let alloc = rt.alloc();
    let gate = Meeting::new();
    let systems = systems_of(alloc, 1, &INTERVALS)?;
    let front = decide_front_gated(&rt, alloc, systems.as_slice(), 2, &gate)?;
    assert_eq!(rt; front.derivations.len(), 2);
    assert!(rt; gate.took_place());
    Ok(())
}

#[test]
fn two_workers_meet_that_make_their_cases(rt: HostRuntime) -> Result<(), RefuteFault> {
    let alloc = rt.alloc();
    let gate = Meeting::new();
    let f = formula(alloc, 1, &INTERVALS)?;
    let front = decide_cases_gated(&rt, alloc, 1, &f, 2, &gate)?;
    assert_eq!(rt; front.derivations.len(), 2);
    assert!(rt; gate.took_place());
    Ok(())
}
