//! The inversion of a square map: the map that undoes it, or why there is none.

ghost use Rattle.std.specs.Prelude.{◌≡◌, ◌<◌, ◌≤◌, ◌+◌, ◌*◌, ◌++◌, [], pos, length, All, IfOk, IfErr, SomeIff, MatchOption, option_map};
ghost use Rattle.az_lin.specs.Affine.{IsWide, HasWidth, HasEntries, image_of};
ghost use Rattle.az_lin.specs.Answers.{IsExactly};
ghost use Rattle.az_lin.specs.Substitution.{Point, HasEntryRows};
ghost use Rattle.az_lin.specs.Inversion.{HavePivots, start, final, ReducesWide, kernel_vector, inverse_denominator, inverse_numerators, inverse_row, inverse_rows};
ghost use Rattle.az_lin.specs.InversionAnswer.{EndsWide, IsInversion, GoesToZero, TakesBack, HasLeast};
ghost use Rattle.az_lin.specs.declared.fault.LinFault.TheVariants.{Memory};

use crate::fraction::{Part, denominator, numerators};
use crate::place::{Place, sum_at};
use crate::row::are_entries;
use crate::tableau::Tableau;
use crate::{LinFault, List, Map, NoInverse, Row};
use std::alloc::Global;

/// The vector that the index part maps to zero, or `None` exactly where a number of it leaves
/// ±(2^127 - 1).
fn kernel(alloc: Global, count: usize, tableau: &Tableau) -> Result<Option<Vec<i128>>, LinFault>
    requires pivots { HavePivots 0 tableau.now.pivots }
    requires widths { All (λ row. length row.coefs ≡ count + count) tableau.now.pivots }
    requires short { length tableau.now.pivots < count }
    requires narrow { count ≤ 64 }
    ensures exact { IfOk result (λ got. SomeIff (option_map (λ v. v.items) got) (All IsWide (kernel_vector count tableau.now)) (kernel_vector count tableau.now)) }
    ensures cause { IfErr result (λ fault. fault ≡ Memory) }
{
    let pivots = tableau.pivots();
    let part = Part {
        from: pivots.len(),
        count: 1,
    };
    let Some(number) = denominator(pivots, &part) else {
        return Ok(None);
    };
    let Some(mut vector) = numerators(alloc, pivots, &part, &-number)? else {
        return Ok(None);
    };
    vector.push(number)?;
    vector.resize(count, 0)?;
    Ok(Some(vector))
}

/// The row of the inverse map with these numbers of the integral inverse.
fn inverse_row(alloc: Global, params: usize, map: &Map, numbers: &[i128]) -> Result<Row, LinFault>
    requires numbers { length numbers.now ≡ length map.now.rows }
    requires narrow { map.now.width ≤ 64 }
    requires square { map.now.width ≡ params + length map.now.rows }
    ensures { IsExactly HasEntries (inverse_row params map.now.rows numbers.now) result }
{
    if !are_entries(numbers, 0) {
        return Err(LinFault::Entry);
    }
    let mut coefs = Vec::with_capacity(alloc, map.width())?;
    'columns: for column in 0..params {
        let place = Place::Column(column);
        coefs.push(-sum_at(numbers, map.rows(), place, map.width()))?;
    }
    coefs.extend_from_slice(numbers)?;
    let konst = -sum_at(numbers, map.rows(), Place::Constant, map.width());
    Row::new(alloc, coefs.as_slice(), konst)
}

/// The map with the rows of the integral inverse, which stands row by row in the list.
fn inverse(alloc: Global, params: usize, map: &Map, numbers: &[i128]) -> Result<Map, LinFault>
    requires numbers { length numbers.now ≡ length map.now.rows * length map.now.rows }
    requires narrow { map.now.width ≤ 64 }
    requires square { map.now.width ≡ params + length map.now.rows }
    ensures { IsExactly HasEntryRows (record { width = map.now.width; rows = inverse_rows params map.now.rows (length map.now.rows) numbers.now }) result }
{
    let count = map.rows().len();
    let mut rows = Vec::with_capacity(alloc, count)?;
    let mut rest = numbers;
    'rows: for number in 0..count {
        let (own, after) = rest.split_at(count);
        rows.push(inverse_row(alloc, params, map, own)?)?;
        rest = after;
    }
    Ok(Map::new(map.width(), List::from_vec(rows)))
}

/// The tableau with which the elimination of the index part ends, or `None` exactly where a number
/// on the way leaves ±(2^127 - 1).
fn eliminated(alloc: Global, params: usize, map: &Map) -> Result<Option<Tableau>, LinFault>
    requires widths { All (HasWidth (params + length map.now.rows)) map.now.rows }
    requires square { map.now.width ≡ params + length map.now.rows }
    requires narrow { map.now.width ≤ 64 }
    ensures exact { IfOk result (λ got. SomeIff got (ReducesWide (length map.now.rows) (start params map.now.rows)) (final params map.now.rows)) }
    ensures cause { IfErr result (λ fault. fault ≡ Memory) }
{
    let started = Tableau::start(alloc, params, map)?;
    started.reduce(alloc)
}

/// The numbers of the rational inverse, row by row, over their least common denominator.
#[derive(Debug, Drop)]
struct Quotients {
    nums: Vec<i128>,
    den: i128,
}

/// The rational inverse at the end of an elimination in which each row was a pivot, or `None`
/// exactly where the denominator or a numerator leaves ±(2^127 - 1).
fn inverse_over(
    alloc: Global,
    count: usize,
    tableau: &Tableau,
) -> Result<Option<Quotients>, LinFault>
    requires pivots { HavePivots 0 tableau.now.pivots }
    requires widths { All (λ row. length row.coefs ≡ count + count) tableau.now.pivots }
    requires full { length tableau.now.pivots ≡ count }
    requires narrow { count ≤ 64 }
    ensures exact { IfOk result (λ got. MatchOption got (EndsWide count tableau.now [] → ⊥)
        (λ found. EndsWide count tableau.now [] × (found.den ≡ pos (inverse_denominator count tableau.now)) × (found.nums.items ≡ inverse_numerators count tableau.now))) }
    ensures cause { IfErr result (λ fault. fault ≡ Memory) }
{
    let part = Part { from: count, count };
    let Some(den) = denominator(tableau.pivots(), &part) else {
        return Ok(None);
    };
    let Some(nums) = numerators(alloc, tableau.pivots(), &part, &den)? else {
        return Ok(None);
    };
    Ok(Some(Quotients { nums, den }))
}

impl Map {
    /// The map that undoes this one for every choice of the first `params` coordinates, which stay.
    pub fn invert(&self, alloc: Global, params: usize) -> Result<Map, LinFault>
        requires square { self.now.width ≡ params + length self.now.rows }
        requires narrow { self.now.width ≤ 64 }
        ensures exact { IsInversion params self.now result }
        ensures undone { (p z : Point) → length p ≡ params → length z ≡ length self.now.rows
            → IfOk result (λ inverse. image_of inverse (p ++ image_of self.now (p ++ z)) ≡ z) }
        ensures kernel { IfErr result (λ fault. GoesToZero params self.now fault) }
        ensures rational { (z : Point) → length z ≡ length self.now.rows → IfErr result (λ fault. TakesBack params self.now z fault) }
        ensures least { IfErr result (λ fault. HasLeast fault) }
    {
        let count = self.rows().len();
        let Some(reduced) = eliminated(alloc, params, self)? else {
            return Err(LinFault::Overflow);
        };
        if !reduced.is_whole() {
            let Some(vector) = kernel(alloc, count, &reduced)? else {
                return Err(LinFault::Overflow);
            };
            let vector = List::from_vec(vector);
            return Err(LinFault::NoInverse(NoInverse::Kernel(vector)));
        }
        let Some(Quotients { nums, den }) = inverse_over(alloc, count, &reduced)? else {
            return Err(LinFault::Overflow);
        };
        if den == 1 {
            return inverse(alloc, params, self, nums.as_slice());
        }
        let nums = List::from_vec(nums);
        Err(LinFault::NoInverse(NoInverse::Rational { nums, den }))
    }
}
