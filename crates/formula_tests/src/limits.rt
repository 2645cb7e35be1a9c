//! Formulas at the limit on cases and beyond, with too many rows, and deeply nested.

use crate::Sign::{All, Any, Row};
use crate::answers::Open;
use crate::{Sign, formula};
use az_lin::Limit;
use formula_refute::{Answer, RefuteFault, cases, decide_cases_gated, negate, refute};
use std::alloc::Global;

/// All of so many `Any[x, -x-1]`, of which each point meets one choice.
fn choices(alloc: Global, count: usize) -> Result<Vec<Sign>, RefuteFault> {
    let mut signs = Vec::new(alloc);
    signs.push(All(count))?;
    for _ in 0..count {
        signs.push(Any(2))?;
        signs.push(Row(&[1, 0]))?;
        signs.push(Row(&[-1, -1]))?;
    }
    Ok(signs)
}

fn is_limit<T>(answer: &Result<T, RefuteFault>, limit: Limit) -> bool {
    match answer {
        Err(RefuteFault::Limit(found)) => *found == limit,
        _ => false,
    }
}

#[test]
fn refuses_two_to_the_fortieth_cases_at_once(rt: HostRuntime) -> Result<(), RefuteFault> {
    let alloc = rt.alloc();
    let f = formula(alloc, 1, choices(alloc, 40)?.as_slice())?;
    assert!(rt; is_limit(&refute(alloc, 1, &f), Limit::Systems));
    assert!(rt; is_limit(&cases(alloc, 1, &f), Limit::Systems));
    assert!(rt;
        is_limit(
            &decide_cases_gated(&rt, alloc, 1, &f, 2, &Open),
            Limit::Systems
        )
    );
    Ok(())
}

#[test]
fn allows_two_to_the_seventeenth_cases_and_no_more(rt: HostRuntime) -> Result<(), RefuteFault> {
    let alloc = rt.alloc();
    let f = formula(alloc, 1, choices(alloc, 17)?.as_slice())?;
    match refute(alloc, 1, &f)? {
        Answer::No { case_no, .. } => assert_eq!(rt; case_no, 0),
        Answer::Yes(_) => assert!(rt; false),
    }
    let mut signs = Vec::new(alloc);
    signs.push(Any(2))?;
    for sign in choices(alloc, 17)?.as_slice() {
        signs.push(*sign)?;
    }
    signs.push(Row(&[1, 0]))?;
    let f = formula(alloc, 1, signs.as_slice())?;
    assert!(rt; is_limit(&refute(alloc, 1, &f), Limit::Systems));
    assert!(rt; is_limit(&cases(alloc, 1, &f), Limit::Systems));
    Ok(())
}

#[test]
fn names_the_limit_on_rows(rt: HostRuntime) -> Result<(), RefuteFault> {
    let alloc = rt.alloc();
    let mut signs = Vec::new(alloc);
    signs.push(All(20_001))?;
    for _ in 0..20_001 {
        signs.push(Row(&[1, 0]))?;
    }
    let f = formula(alloc, 1, signs.as_slice())?;
    assert!(rt; is_limit(&refute(alloc, 1, &f), Limit::Rows));
    Ok(())
}

/// The row `-1` in so many layers, all and any in turn.
fn layers(alloc: Global, count: usize) -> Result<Vec<Sign>, RefuteFault> {
    let mut signs = Vec::new(alloc);
    for _ in 0..count {
        signs.push(All(1))?;
        signs.push(Any(1))?;
    }
    signs.push(Row(&[0, -1]))?;
    Ok(signs)
}

#[test]
fn answers_a_formula_of_two_thousand_layers(rt: HostRuntime) -> Result<(), RefuteFault> {
    let alloc = rt.alloc();
    let f = formula(alloc, 1, layers(alloc, 1000)?.as_slice())?;
    match refute(alloc, 1, &f)? {
        Answer::Yes(derivations) => assert_eq!(rt; derivations.len(), 1),
        Answer::No { .. } => assert!(rt; false),
    }
    let _ = negate(alloc, &f)?;
    Ok(())
}
