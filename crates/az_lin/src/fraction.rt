//! The entries of cleared rows over their pivots, brought over one denominator.

ghost use Rattle.std.specs.Prelude.{◌≡◌, ◌^◌, ◌<◌, ◌≤◌, ◌+◌, ◌*ℤ◌, ◌++◌, ◌<ℤ◌, length, All, map, pos, IfOk, IfErr, SomeIff, IsTrue, ◌↔◌, option_map, unsigned_abs};
ghost use Rattle.std.specs.Int.{int_div_euclid};
ghost use Rattle.az_lin.specs.Affine.{IsWide};
ghost use Rattle.az_lin.specs.Inversion.{entry, HavePivots, columns_of, shared, common_multiple, denominator_from, numerators};
ghost use Rattle.az_lin.specs.declared.fault.LinFault.TheVariants.{Memory};

use crate::tableau::divisor;
use crate::{ExactRow, LinFault, gcd, gcd_all, wide_product};
use std::alloc::Global;

/// So many columns of a row, from one on.
#[derive(Debug, Clone, Copy)]
pub(crate) struct Part {
    pub(crate) from: usize,
    pub(crate) count: usize,
}

fn part_of<'a>(row: &'a ExactRow, part: &Part) -> &'a [i128]
    requires { part.now.from + part.now.count ≤ length row.now.coefs }
    ensures value { result.now ≡ columns_of part.now.from part.now.count row.now }
    ensures range { All IsWide result.now }
{
    &row.coefs()[part.from..part.from + part.count]
}

/// What divides the pivot of the row with this number and each of its entries in the part.
fn shared_by(number: usize, row: &ExactRow, part: &Part) -> i128
    requires number { number < length row.now.coefs }
    requires pivot { 0 < unsigned_abs (entry number row.now) }
    requires part { part.now.from + part.now.count ≤ length row.now.coefs }
    ensures value { result ≡ pos (shared (entry number row.now) (columns_of part.now.from part.now.count row.now)) }
    ensures positive { pos 0 <ℤ result }
    ensures range { IsWide result }
{
    divisor(&row.coef(number), gcd_all(part_of(row, part)))
}

/// The least common multiple, or `None` exactly where it leaves 2^127 - 1.
fn multiple(a: u128, b: u128) -> Option<u128>
    requires { 0 < a }
    ensures { SomeIff result (common_multiple a b < 2 ^ 127) (common_multiple a b) }
{
    match (a / gcd(a, b)).checked_mul(b) {
        Some(multiple) if multiple <= i128::MAX as u128 => Some(multiple),
        _ => None,
    }
}

/// The least positive number for which each row's part over its pivot is whole, or `None` exactly
/// where it leaves 2^127 - 1.
pub(crate) fn denominator(rows: &[ExactRow], part: &Part) -> Option<i128>
    requires pivots { HavePivots 0 rows.now }
    requires square { All (λ row. length rows.now ≤ length row.coefs) rows.now }
    requires parts { All (λ row. part.now.from + part.now.count ≤ length row.coefs) rows.now }
    ensures exact { SomeIff result (denominator_from part.now.from part.now.count 1 0 rows.now < 2 ^ 127) (pos (denominator_from part.now.from part.now.count 1 0 rows.now)) }
{
    let mut known = 1;
    'rows: for number in 0..rows.len() {
        let row = &rows[number];
        let own = row.coef(number).div_euclid(shared_by(number, row, part));
        match multiple(known, own.unsigned_abs()) {
            Some(multiple) => known = multiple,
            None => return None,
        }
    }
    Some(known as i128)
}

/// Appends the quotient of each number times the factor; `false` exactly where one leaves
/// ±(2^127 - 1).
fn push_products(
    numbers: &[i128],
    divisor: &i128,
    factor: &i128,
    products: &mut Vec<i128>,
) -> Result<bool, LinFault>
    requires divisor { pos 0 <ℤ divisor.now }
    ensures value { IfOk result (λ fits. IsTrue fits → products.new.items ≡ products.old.items ++ map (λ c. int_div_euclid c divisor.now *ℤ factor.now) numbers.now) }
    ensures fits { IfOk result (λ fits. IsTrue fits ↔ All (λ c. IsWide (int_div_euclid c divisor.now *ℤ factor.now)) numbers.now) }
    ensures cause { IfErr result (λ fault. fault ≡ Memory) }
{
    'numbers: for number in numbers {
        match wide_product(number.div_euclid(*divisor), *factor) {
            Some(product) => products.push(product)?,
            None => return Ok(false),
        }
    }
    Ok(true)
}

/// The parts of the rows over their pivots, brought over the denominator, or `None` exactly where
/// a number leaves ±(2^127 - 1).
pub(crate) fn numerators(
    alloc: Global,
    rows: &[ExactRow],
    part: &Part,
    den: &i128,
) -> Result<Option<Vec<i128>>, LinFault>
    requires pivots { HavePivots 0 rows.now }
    requires square { All (λ row. length rows.now ≤ length row.coefs) rows.now }
    requires parts { All (λ row. part.now.from + part.now.count ≤ length row.coefs) rows.now }
    requires range { IsWide den.now }
    ensures exact { IfOk result (λ got. SomeIff (option_map (λ v. v.items) got) (All IsWide (numerators part.now.from part.now.count den.now 0 rows.now)) (numerators part.now.from part.now.count den.now 0 rows.now)) }
    ensures cause { IfErr result (λ fault. fault ≡ Memory) }
{
    let mut products = Vec::new(alloc);
    'rows: for number in 0..rows.len() {
        let row = &rows[number];
        let shared = shared_by(number, row, part);
        let factor = den.div_euclid(row.coef(number).div_euclid(shared));
        if !push_products(part_of(row, part), &shared, &factor, &mut products)? {
            return Ok(None);
        }
    }
    Ok(Some(products))
}
