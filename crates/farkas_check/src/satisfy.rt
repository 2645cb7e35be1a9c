//! Whether a rational point satisfies a system.

ghost use Rattle.std.specs.Prelude.{◌≡◌, ◌*ℤ◌, ◌≤ℤ◌, ◌<ℤ◌, ◌↔◌, SomeIff, IsTrue, length, pos};
ghost use Rattle.farkas_check.specs.Verdict.{IsMet};
ghost use Rattle.az_lin.specs.RationalPoint.{IsWideAt, Satisfies, value_over};

use az_lin::{Conj, RatPoint, Row, add_products, wide_product};

/// The denominator times the row's value at the point.
fn scaled_value(row: &Row, point: &RatPoint) -> Option<i128>
    requires { length row.now.coefs ≡ length point.now.nums }
    ensures { SomeIff result (IsWideAt point.now row.now) (value_over row.now point.now) }
{
    let Some(start) = wide_product(row.konst(), point.den) else {
        return None;
    };
    add_products(start, row.coefs(), point.nums.as_slice())
}

fn is_met(row: &Row, point: &RatPoint) -> bool
    requires { length row.now.coefs ≡ length point.now.nums }
    ensures { IsTrue result ↔ IsMet point.now row.now }
{
    match scaled_value(row, point) {
        Some(value) => value >= 0,
        None => false,
    }
}

/// Whether the point has the system's width and a positive denominator, and every row is at least
/// 0 there, with every product and sum of its evaluation within ±(2^127 - 1).
pub fn satisfies(system: &Conj, point: &RatPoint) -> bool
    ensures { IsTrue result ↔ Satisfies system.now point.now }
{
    if point.nums.len() != system.width() || point.den <= 0 {
        return false;
    }
    for row in system.rows() {
        if !is_met(row, point) {
            return false;
        }
    }
    true
}
