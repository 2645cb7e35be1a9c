//! A row on the way of an exact computation, whose entries may be far wider than a stored row's.

ghost use Rattle.std.specs.Prelude.{◌≡◌, ◌<◌, length, All, IfOk, IfErr, SomeIff, map, slice_get, pos, ◌<ℤ◌};
ghost use Rattle.std.specs.Int.{int_div_euclid};
ghost use Rattle.az_lin.specs.Affine.{Affine, IsWide};
ghost use Rattle.az_lin.specs.Combination.{HasWideEntries, combination, IsWideCombination, quotient};
ghost use Rattle.az_lin.specs.declared.fault.LinFault.TheVariants.{Memory};

use crate::scaled_sum::{sum_of_scaled, sums_of_scaled};
use crate::{LinFault, Row, RowView, TryCopy, Weights};
use smallvec::SmallVec;
use std::alloc::Global;
use std::marker::Model;

/// A row whose entries lie within ±(2^127 - 1).
#[derive(Debug, Drop)]
pub struct ExactRow {
    coefs: SmallVec<i128, 8>,
    konst: i128,
}

impl Model for ExactRow {
    ghost use Rattle.az_lin.specs.Affine.{Affine};
    ghost use Rattle.az_lin.specs.Combination.{HasWideEntries};

    ghost Value = { Affine };

    ghost view = { λ row. record { coefs = row.coefs.items; konst = row.konst } };

    ghost invariant = { λ row. HasWideEntries (record { coefs = row.coefs.items; konst = row.konst }) };
}

impl ExactRow {
    pub fn new(alloc: Global, coefs: &[i128], konst: i128) -> Result<ExactRow, LinFault>
        requires { HasWideEntries (record { coefs = coefs.now; konst = konst }) }
        ensures ok { IfOk result (λ row. row ≡ record { coefs = coefs.now; konst = konst }) }
        ensures cause { IfErr result (λ fault. fault ≡ Memory) }
    {
        let coefs = SmallVec::from_slice(alloc, coefs)?;
        Ok(ExactRow { coefs, konst })
    }

    pub fn from_row(alloc: Global, row: &Row) -> Result<ExactRow, LinFault>
        ensures ok { IfOk result (λ copied. copied ≡ row.now) }
        ensures cause { IfErr result (λ fault. fault ≡ Memory) }
    {
        let coefs = SmallVec::from_slice(alloc, row.coefs())?;
        Ok(ExactRow {
            coefs,
            konst: row.konst(),
        })
    }

    pub fn width(&self) -> usize
        ensures { result ≡ length self.now.coefs }
    {
        self.coefs.len()
    }

    pub fn coef(&self, column: usize) -> i128
        requires { column < length self.now.coefs }
        ensures value { slice_get self.now.coefs column ≡ Some result }
        ensures range { IsWide result }
    {
        self.coefs.as_slice()[column]
    }

    pub fn coefs(&self) -> &[i128]
        ensures value { result.now ≡ self.now.coefs }
        ensures range { All IsWide result.now }
    {
        self.coefs.as_slice()
    }

    pub fn konst(&self) -> i128
        ensures value { result ≡ self.now.konst }
        ensures range { IsWide result }
    {
        self.konst
    }
}

impl ExactRow {
    /// The sum `a * left + b * right`, or `None` exactly where a product or a sum of it leaves
    /// ±(2^127 - 1).
    pub fn combination(
        alloc: Global,
        weights: &Weights,
        left: &RowView<'_>,
        right: &RowView<'_>,
    ) -> Result<Option<ExactRow>, LinFault>
        requires { length left.now.coefs.now ≡ length right.now.coefs.now }
        ensures exact { IfOk result (λ sum. let x : Affine = record { coefs = left.now.coefs.now; konst = left.now.konst } in
            let y : Affine = record { coefs = right.now.coefs.now; konst = right.now.konst } in
            SomeIff sum (IsWideCombination weights.now.a x weights.now.b y) (combination weights.now.a x weights.now.b y)) }
        ensures cause { IfErr result (λ fault. fault ≡ Memory) }
    {
        let Some(konst) = sum_of_scaled(weights, left.konst, right.konst) else {
            return Ok(None);
        };
        match sums_of_scaled(alloc, weights, left.coefs, right.coefs)? {
            Some(coefs) => Ok(Some(ExactRow { coefs, konst })),
            None => Ok(None),
        }
    }

    /// The row divided by a positive number, each entry rounded down, in the memory of the row.
    pub fn divided(self, divisor: i128) -> ExactRow
        requires { pos 0 <ℤ divisor }
        ensures { result ≡ quotient self divisor }
    {
        if divisor == 1 {
            return self;
        }
        let ExactRow { mut coefs, konst } = self;
        divide_each(coefs.as_mut_slice(), divisor);
        ExactRow {
            coefs,
            konst: konst.div_euclid(divisor),
        }
    }
}

impl TryCopy for ExactRow {
    fn copy(&self, alloc: Global) -> Result<Self, LinFault> {
        let coefs = SmallVec::from_slice(alloc, self.coefs.as_slice())?;
        Ok(ExactRow {
            coefs,
            konst: self.konst,
        })
    }
}

/// Divides each number, and rounds it down.
fn divide_each(numbers: &mut [i128], divisor: i128)
    requires { pos 0 <ℤ divisor }
    ensures { numbers.new ≡ map (λ number. int_div_euclid number divisor) numbers.old }
{
    for number in numbers.iter_mut() {
        *number = number.div_euclid(divisor);
    }
}
