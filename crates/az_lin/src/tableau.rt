//! The tableau of an inversion: the index part beside the identity, cleared column by column.

ghost use Rattle.std.specs.Prelude.{◌≡◌, [], ◌^◌, ◌<◌, ◌≤◌, ◌+◌, length, drop, All, map, pos, IfOk, IfErr, SomeIff, OnOk, IsTrue, ◌↔◌, unsigned_abs, ◌<ℤ◌};
ghost use Rattle.az_lin.specs.Affine.{Affine, IsWide};
ghost use Rattle.az_lin.specs.CommonDivisor.{gcd_of};
ghost use Rattle.az_lin.specs.Inversion.{entry, reaches, place_of, primitive, row_factor, pivot_factor, beside, cleared, ClearsWide, step, StepsWide, reduced, ReducesWide, start, HasSize};
ghost use Rattle.az_lin.specs.declared.fault.LinFault.TheVariants.{Memory};

use crate::{ExactRow, LinFault, Map, Row, Weights, gcd, gcd_all};
use std::alloc::Global;
use std::marker::Model;

/// The rows that were a pivot, in the order of their columns, and the rows not yet used.
#[derive(Debug, Drop)]
pub(crate) struct Tableau {
    pivots: Vec<ExactRow>,
    rest: Vec<ExactRow>,
}

impl Model for Tableau {
    ghost use Rattle.az_lin.specs.Inversion.{Tableau};

    ghost Value = { Tableau };

    ghost view = { λ t. record { pivots = t.pivots.items; rest = t.rest.items } };
}

/// The row divided by the greatest common divisor of its entries.
fn primitive(row: ExactRow) -> ExactRow
    ensures { result ≡ primitive row }
{
    match i128::try_from(gcd_all(row.coefs())) {
        Ok(divisor) if divisor > 1 => row.divided(divisor),
        _ => row,
    }
}

/// The greatest common divisor of a number and a magnitude.
pub(crate) fn divisor(number: &i128, magnitude: u128) -> i128
    requires some { 0 < unsigned_abs number.now }
    requires wide { IsWide number.now }
    ensures value { result ≡ pos (gcd_of (unsigned_abs number.now) magnitude) }
    ensures positive { pos 0 <ℤ result }
    ensures range { IsWide result }
{
    let shared = gcd(number.unsigned_abs(), magnitude);
    shared as i128
}

/// The factors of a row with this entry in the pivot's column, and of the pivot row.
fn factors(pivot: &i128, entry: &i128) -> Weights
    requires pivot { 0 < unsigned_abs pivot.now }
    requires wide_pivot { IsWide pivot.now }
    requires wide_entry { IsWide entry.now }
    ensures row { result.a ≡ row_factor pivot.now entry.now }
    ensures pivot_row { result.b ≡ pivot_factor pivot.now entry.now }
{
    let divisor = divisor(pivot, entry.unsigned_abs());
    Weights {
        a: pivot.div_euclid(divisor),
        b: -entry.div_euclid(divisor),
    }
}

/// The row of the map with this number, beside the row of the identity.
fn beside(
    alloc: Global,
    params: usize,
    count: usize,
    number: usize,
    row: &Row,
) -> Result<ExactRow, LinFault>
    requires width { length row.now.coefs ≡ params + count }
    requires narrow { params + count ≤ 64 }
    requires number { number < count }
    ensures ok { IfOk result (λ made. made ≡ beside params count number row.now) }
    ensures cause { IfErr result (λ fault. fault ≡ Memory) }
{
    let mut coefs = Vec::with_capacity(alloc, count + count)?;
    coefs.extend_from_slice(&row.coefs()[params..])?;
    coefs.resize(count + count, 0)?;
    coefs[count + number] = 1;
    ExactRow::new(alloc, coefs.as_slice(), 0)
}

/// The place of the first row with an entry in the column.
fn place_of(column: usize, rows: &[ExactRow]) -> Option<usize>
    requires { All (λ row. column < length row.coefs) rows.now }
    ensures { SomeIff result (place_of column rows.now < length rows.now) (place_of column rows.now) }
{
    'rows: for number in 0..rows.len() {
        if rows[number].coef(column) != 0 {
            return Some(number);
        }
    }
    None
}

/// A row after the pivot row has cleared the column in it, or `None` exactly where a product or a
/// difference leaves ±(2^127 - 1).
fn cleared(
    alloc: Global,
    column: usize,
    pivot: &ExactRow,
    row: &ExactRow,
) -> Result<Option<ExactRow>, LinFault>
    requires same { length row.now.coefs ≡ length pivot.now.coefs }
    requires there { column < length pivot.now.coefs }
    requires pivot { IsTrue (reaches column pivot.now) }
    requires entry { IsTrue (reaches column row.now) }
    ensures exact { IfOk result (λ got. SomeIff got (ClearsWide column pivot.now row.now) (cleared column pivot.now row.now)) }
    ensures cause { IfErr result (λ fault. fault ≡ Memory) }
{
    let weights = factors(&pivot.coef(column), &row.coef(column));
    match ExactRow::combination(alloc, &weights, &row.view(), &pivot.view())? {
        Some(sum) => Ok(Some(primitive(sum))),
        None => Ok(None),
    }
}

/// Clears the column in each row; `false` exactly where a product or a difference leaves
/// ±(2^127 - 1).
fn clear(
    alloc: Global,
    column: usize,
    pivot: &ExactRow,
    rows: &mut [ExactRow],
) -> Result<bool, LinFault>
    requires widths { All (λ row. length row.coefs ≡ length pivot.now.coefs) rows.old }
    requires there { column < length pivot.now.coefs }
    requires pivot { IsTrue (reaches column pivot.now) }
    ensures fits { IfOk result (λ fits. IsTrue fits ↔ All (ClearsWide column pivot.now) rows.old) }
    ensures value { IfOk result (λ fits. IsTrue fits → rows.new ≡ map (cleared column pivot.now) rows.old) }
    ensures cause { IfErr result (λ fault. fault ≡ Memory) }
{
    'rows: for number in 0..rows.len() {
        if rows[number].coef(column) == 0 {
            continue;
        }
        match cleared(alloc, column, pivot, &rows[number])? {
            Some(row) => rows[number] = row,
            None => return Ok(false),
        }
    }
    Ok(true)
}

impl Tableau {
    /// The index part of the map beside the identity.
    pub(crate) fn start(alloc: Global, params: usize, map: &Map) -> Result<Tableau, LinFault>
        requires square { map.now.width ≡ params + length map.now.rows }
        requires narrow { map.now.width ≤ 64 }
        ensures ok { IfOk result (λ tableau. tableau ≡ start params map.now.rows) }
        ensures cause { IfErr result (λ fault. fault ≡ Memory) }
    {
        let rows = map.rows();
        let mut rest = Vec::with_capacity(alloc, rows.len())?;
        'rows: for number in 0..rows.len() {
            rest.push(beside(alloc, params, rows.len(), number, &rows[number])?)?;
        }
        Ok(Tableau {
            pivots: Vec::new(alloc),
            rest,
        })
    }

    pub(crate) fn pivots(&self) -> &[ExactRow]
        ensures { result.now ≡ self.now.pivots }
    {
        self.pivots.as_slice()
    }

    /// Whether each row has been a pivot.
    pub(crate) fn is_whole(&self) -> bool
        ensures { IsTrue result ↔ (self.now.rest ≡ []) }
    {
        self.rest.is_empty()
    }

    /// Clears the next column, where it has a pivot; `false` exactly where a number leaves
    /// ±(2^127 - 1).
    fn step(&mut self, alloc: Global) -> Result<bool, LinFault>
        requires size { HasSize (length self.old.pivots + length self.old.rest) self.old }
        ensures fits { IfOk result (λ fits. IsTrue fits ↔ StepsWide self.old) }
        ensures value { IfOk result (λ fits. IsTrue fits → self.new ≡ step self.old) }
        ensures cause { IfErr result (λ fault. fault ≡ Memory) }
    {
        let column = self.pivots.len();
        let Some(place) = place_of(column, self.rest.as_slice()) else {
            return Ok(true);
        };
        let pivot = self.rest.remove(place);
        if !clear(alloc, column, &pivot, self.pivots.as_mut_slice())? {
            return Ok(false);
        }
        if !clear(alloc, column, &pivot, self.rest.as_mut_slice())? {
            return Ok(false);
        }
        self.pivots.push(pivot)?;
        Ok(true)
    }

    /// Clears column by column until one has no pivot or each row has been one; `None` exactly
    /// where a number on the way leaves ±(2^127 - 1).
    pub(crate) fn reduce(self, alloc: Global) -> Result<Option<Tableau>, LinFault>
        requires { HasSize (length self.rest) self }
        ensures exact { IfOk result (λ got. SomeIff got (ReducesWide (length self.rest) self) (reduced (length self.rest) self)) }
        ensures cause { IfErr result (λ fault. fault ≡ Memory) }
    {
        let mut tableau = self;
        'columns: for column in 0..tableau.rest.len() {
            if !tableau.step(alloc)? {
                return Ok(None);
            }
        }
        Ok(Some(tableau))
    }
}
