//! Negations worked out by hand, and the formulas of domains.

ghost use Rattle.std.specs.Prelude.{IfOk};
ghost use Rattle.az_lin.specs.Affine.{IsOver};

use crate::Sign::{All, Any, Row};
use crate::answers::is_row;
use crate::{Sign, formula};
use az_lin::{Conj, Domain, LinFault, List, Row as AffineRow};
use formula_refute::{Formula, RefuteFault, domain_formula, negate};
use std::alloc::Global;

const MOST: i128 = (1 << 60) - 1;

/// A formula and its negation, or none where an entry leaves the range.
const NEGATIONS: &[(&[Sign], Option<&[Sign]>)] = &[
    (&[Row(&[1, 0])], Some(&[Row(&[-1, -1])])),
    (&[Row(&[2, 3])], Some(&[Row(&[-2, -4])])),
    (&[Row(&[0, -1])], Some(&[Row(&[0, 0])])),
    (&[All(0)], Some(&[Any(0)])),
    (&[Any(0)], Some(&[All(0)])),
    (
        &[All(2), Row(&[1, -1]), Row(&[-1, 0])],
        Some(&[Any(2), Row(&[-1, 0]), Row(&[1, -1])]),
    ),
    (
        &[Any(2), All(1), Row(&[1, 5]), Row(&[-1, 0])],
        Some(&[All(2), Any(1), Row(&[-1, -6]), Row(&[1, -1])]),
    ),
    (&[Row(&[MOST, -MOST])], Some(&[Row(&[-MOST, MOST - 1])])),
    (&[Row(&[1, MOST])], None),
    (&[Any(2), Row(&[1, 0]), Row(&[1, MOST])], None),
];

fn push_members<'a>(
    left: &mut Vec<&'a Formula>,
    members: &'a [Formula],
) -> Result<(), RefuteFault> {
    for member in members.iter().rev() {
        left.push(member)?;
    }
    Ok(())
}

/// Whether the formula has these signs.
fn has_signs(alloc: Global, f: &Formula, signs: &[Sign]) -> Result<bool, RefuteFault> {
    let mut left = Vec::new(alloc);
    left.push(f)?;
    for sign in signs {
        let Some(f) = left.pop() else {
            return Ok(false);
        };
        let is_same = match f {
            Formula::Atom(row) => match sign {
                Row(numbers) => is_row(row, numbers),
                _ => false,
            },
            Formula::All(members) => {
                push_members(&mut left, members.as_slice())?;
                match sign {
                    All(count) => members.len() == *count,
                    _ => false,
                }
            }
            Formula::Any(members) => {
                push_members(&mut left, members.as_slice())?;
                match sign {
                    Any(count) => members.len() == *count,
                    _ => false,
                }
            }
        };
        if !is_same {
            return Ok(false);
        }
    }
    Ok(left.is_empty())
}

#[test]
fn negates_each_formula(rt: HostRuntime) -> Result<(), RefuteFault> {
    let alloc = rt.alloc();
    for (number, (signs, wanted)) in NEGATIONS.iter().enumerate() {
        let f = formula(alloc, 1, signs)?;
        let right = match negate(alloc, &f) {
            Ok(negation) => match wanted {
                Some(signs) => has_signs(alloc, &negation, signs)?,
                None => false,
            },
            Err(RefuteFault::Entry) => wanted.is_none(),
            Err(_) => false,
        };
        assert!(rt; right, "the negation of entry {number}");
    }
    Ok(())
}

/// The rows `x` and `-x+bound` over one column.
fn interval(alloc: Global, bound: i128) -> Result<Conj, LinFault>
    ensures { IfOk result (IsOver 1) }
{
    let mut rows = List::new(alloc);
    rows.push(AffineRow::new(alloc, &[1], 0)?)?;
    rows.push(AffineRow::new(alloc, &[-1], bound)?)?;
    Ok(Conj::new(1, rows))
}

#[test]
fn one_disjunct_is_all_of_its_rows(rt: HostRuntime) -> Result<(), RefuteFault> {
    let alloc = rt.alloc();
    let Ok(conj) = interval(alloc, 3) else {
        return Err(RefuteFault::Memory);
    };
    let Ok(domain) = Domain::of_conj(alloc, conj) else {
        return Err(RefuteFault::Memory);
    };
    let f = domain_formula(alloc, &domain)?;
    assert!(rt; has_signs(alloc, &f, &[All(2), Row(&[1, 0]), Row(&[-1, 3])])?);
    Ok(())
}

/// The two intervals as one domain.
fn two_intervals(alloc: Global) -> Result<Domain, LinFault> {
    let mut conjs = List::new(alloc);
    conjs.push(interval(alloc, 3)?)?;
    conjs.push(interval(alloc, 7)?)?;
    Domain::of_list(1, conjs)
}

#[test]
fn several_disjuncts_are_any_of_them(rt: HostRuntime) -> Result<(), RefuteFault> {
    let alloc = rt.alloc();
    let Ok(domain) = two_intervals(alloc) else {
        return Err(RefuteFault::Memory);
    };
    let f = domain_formula(alloc, &domain)?;
    let wanted = [
        Any(2),
        All(2),
        Row(&[1, 0]),
        Row(&[-1, 3]),
        All(2),
        Row(&[1, 0]),
        Row(&[-1, 7]),
    ];
    assert!(rt; has_signs(alloc, &f, &wanted)?);
    Ok(())
}
