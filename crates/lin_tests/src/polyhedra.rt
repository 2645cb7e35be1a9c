//! Polyhedra in one coordinate, and maps.

ghost use Rattle.std.specs.Prelude.{◌≡◌, IfOk, length};

use az_lin::{Conj, Domain, ExactRow, LinFault, List, Map, NoInverse, Row, TryCopy};
use az_poly::{contains, image_by_inverse, meet, minus, preimage, translate};
use std::alloc::Global;
use std::test::Fail;

/// The row `coef * x + konst`.
type Line = (i128, i128);

fn conj(alloc: Global, first: Line, second: Line) -> Result<Conj, LinFault>
    ensures { IfOk result (λ conj. conj.width ≡ 1) }
{
    let mut rows = List::new(alloc);
    rows.push(Row::new(alloc, &[first.0], first.1)?)?;
    rows.push(Row::new(alloc, &[second.0], second.1)?)?;
    Ok(Conj::new(1, rows))
}

fn domain(alloc: Global, row: Line) -> Result<Domain, LinFault>
    ensures { IfOk result (λ domain. domain.width ≡ 1) }
{
    let mut rows = List::new(alloc);
    rows.push(Row::new(alloc, &[row.0], row.1)?)?;
    Domain::of_conj(alloc, Conj::new(1, rows))
}

/// The map `y -> y + shift`.
fn moved(alloc: Global, shift: i128) -> Result<Map, LinFault>
    ensures rows { IfOk result (λ map. length map.rows ≡ 1) }
    ensures width { IfOk result (λ map. map.width ≡ 1) }
{
    let mut rows = List::new(alloc);
    rows.push(Row::new(alloc, &[1], shift)?)?;
    Ok(Map::new(1, rows))
}

fn is(conj: &Conj, lines: &[Line]) -> bool {
    let rows = conj.rows();
    rows.len() == lines.len()
        && rows.iter().zip(lines).all(|(row, line)| {
            row.coefs() == [line.0].as_slice() && row.konst() == line.1
        })
}

fn has_one(domain: &Domain, lines: &[Line]) -> bool {
    match domain.disjuncts() {
        [only] => is(only, lines),
        _ => false,
    }
}

#[test]
fn cuts_an_interval_in_disjoint_pieces(rt: HostRuntime) -> Result<(), Fail> {
    let alloc = rt.alloc();
    let whole = conj(alloc, (1, 0), (-1, 9))?;
    let hole = conj(alloc, (1, -3), (-1, 5))?;
    let pieces = minus(alloc, &whole, &hole)?;
    match pieces.as_slice() {
        [below, above] => {
            assert!(rt; is(below, &[(1, 0), (-1, 9), (-1, 2)]));
            assert!(rt; is(above, &[(1, 0), (-1, 9), (1, -3), (1, -6)]));
        }
        _ => assert!(rt; false),
    }
    Ok(())
}

#[test]
fn meets_domains(rt: HostRuntime) -> Result<(), Fail> {
    let alloc = rt.alloc();
    let met = meet(alloc, &domain(alloc, (1, -3))?, &domain(alloc, (-1, 9))?)?;
    assert!(rt; has_one(&met, &[(1, -3), (-1, 9)]));
    Ok(())
}

#[test]
fn moves_a_domain(rt: HostRuntime) -> Result<(), Fail> {
    let alloc = rt.alloc();
    let from_three = domain(alloc, (1, -3))?;
    let translated = translate(alloc, &from_three, &[2])?;
    assert!(rt; has_one(&translated, &[(1, -5)]));
    Ok(())
}

#[test]
fn pulls_a_domain_back(rt: HostRuntime) -> Result<(), Fail> {
    let alloc = rt.alloc();
    let from_three = domain(alloc, (1, -3))?;
    let before = preimage(alloc, &from_three, &moved(alloc, 1)?)?;
    assert!(rt; has_one(&before, &[(1, -2)]));
    Ok(())
}

#[test]
fn takes_a_domain_through_a_map(rt: HostRuntime) -> Result<(), Fail> {
    let alloc = rt.alloc();
    let from_three = domain(alloc, (1, -3))?;
    let image = image_by_inverse(alloc, &from_three, &moved(alloc, -1)?)?;
    assert!(rt; has_one(&image, &[(1, -4)]));
    Ok(())
}

#[test]
fn holds_from_its_border_on(rt: HostRuntime) -> Result<(), Fail> {
    let from_three = domain(rt.alloc(), (1, -3))?;
    assert!(rt; contains(&from_three, &[3]));
    assert!(rt; !contains(&from_three, &[2]));
    Ok(())
}

#[test]
fn copies_composes_and_applies_maps(rt: HostRuntime) -> Result<(), Fail> {
    let alloc = rt.alloc();
    let up = moved(alloc, 1)?;
    let mut image = [0];
    up.apply(&[5], &mut image);
    assert_eq!(rt; image, [6]);
    let twice = up.copy(alloc)?.compose(alloc, &up)?;
    match twice.rows() {
        [row] => assert_eq!(rt; ExactRow::from_row(alloc, row)?.konst(), 2),
        _ => assert!(rt; false),
    }
    Ok(())
}

/// The map of one row without constant.
fn form(alloc: Global, coefs: &[i128]) -> Result<Map, LinFault>
    ensures rows { IfOk result (λ map. length map.rows ≡ 1) }
    ensures width { IfOk result (λ map. map.width ≡ length coefs.now) }
{
    let mut rows = List::new(alloc);
    rows.push(Row::new(alloc, coefs, 0)?)?;
    Ok(Map::new(coefs.len(), rows))
}

#[test]
fn inverts_a_skewed_plane(rt: HostRuntime) -> Result<(), Fail> {
    let alloc = rt.alloc();
    let mut rows = List::new(alloc);
    rows.push(Row::new(alloc, &[1, 0], 0)?)?;
    rows.push(Row::new(alloc, &[1, 1], 0)?)?;
    let inverse = Map::new(2, rows).invert(alloc, 0)?;
    match inverse.rows() {
        [first, second] => {
            assert!(rt; first.coefs() == [1, 0].as_slice() && first.konst() == 0);
            assert!(rt; second.coefs() == [-1, 1].as_slice() && second.konst() == 0);
        }
        _ => assert!(rt; false),
    }
    Ok(())
}

/// The numbers of a refusal, and the denominator, which is 0 for a kernel vector.
fn evidence(answer: Result<Map, LinFault>) -> Option<(List<i128>, i128)> {
    match answer {
        Err(LinFault::NoInverse(NoInverse::Rational { nums, den })) => Some((nums, den)),
        Err(LinFault::NoInverse(NoInverse::Kernel(vector))) => Some((vector, 0)),
        _ => None,
    }
}

#[test]
fn refuses_to_invert(rt: HostRuntime) -> Result<(), Fail> {
    let alloc = rt.alloc();
    match evidence(form(alloc, &[2])?.invert(alloc, 0)) {
        Some((nums, den)) => assert!(rt; nums.as_slice() == [1].as_slice() && den == 2),
        None => assert!(rt; false),
    }
    match evidence(form(alloc, &[1, 0])?.invert(alloc, 1)) {
        Some((vector, den)) => assert!(rt; vector.as_slice() == [1].as_slice() && den == 0),
        None => assert!(rt; false),
    }
    let great = 1 << 59;
    let mut rows = List::new(alloc);
    rows.push(Row::new(alloc, &[great, 1, 0], 0)?)?;
    rows.push(Row::new(alloc, &[1, great, 1], 0)?)?;
    rows.push(Row::new(alloc, &[0, 1, great], 0)?)?;
    match Map::new(3, rows).invert(alloc, 0) {
        Err(LinFault::Overflow) => {}
        _ => assert!(rt; false),
    }
    Ok(())
}
