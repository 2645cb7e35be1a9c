//! Formulas as a table writes them: each sign before its members.

ghost use Rattle.std.specs.Prelude.{IfOk, OnOk, All};
ghost use Rattle.formula_refute.specs.Claims.{claim, IsOver};
ghost use Rattle.formula_tests.specs.Over.{IsFormulaOver};

use az_lin::Row;
use formula_refute::{Formula, RefuteFault};
use sqlite_items::Items;
use std::alloc::Global;

#[derive(Debug, Clone, Copy)]
pub enum Sign {
    /// A row: its coefficients by column, and its constant.
    Row(&'static [i128]),
    /// All of the next formulas, so many.
    All(usize),
    /// Any of the next formulas, so many.
    Any(usize),
}

fn atom(alloc: Global, width: usize, numbers: &[i128]) -> Result<Formula, RefuteFault>
    ensures { IfOk result (IsFormulaOver width) }
{
    let Some((konst, coefs)) = numbers.split_last() else {
        return Err(RefuteFault::Entry);
    };
    if coefs.len() != width {
        return Err(RefuteFault::Entry);
    }
    match Row::new(alloc, coefs, *konst) {
        Ok(row) => Ok(Formula::Atom(row)),
        Err(_) => Err(RefuteFault::Entry),
    }
}

/// The formulas that were made last, the last one first.
fn members(
    alloc: Global,
    width: usize,
    made: &mut Vec<Formula>,
    count: usize,
) -> Result<Items<Formula>, RefuteFault>
    requires { All (IsFormulaOver width) made.old.items }
    ensures left { All (IsFormulaOver width) made.new.items }
    ensures taken { IfOk result (All (IsFormulaOver width)) }
{
    let mut members = Items::new(alloc);
    for _ in 0..count {
        match made.pop() {
            Some(formula) => members.push(formula)?,
            None => return Err(RefuteFault::Entry),
        }
    }
    Ok(members)
}

/// The formula of one sign, whose members were made last.
fn next(
    alloc: Global,
    width: usize,
    made: &mut Vec<Formula>,
    sign: Sign,
) -> Result<Formula, RefuteFault>
    requires { All (IsFormulaOver width) made.old.items }
    ensures left { All (IsFormulaOver width) made.new.items }
    ensures next { IfOk result (IsFormulaOver width) }
{
    match sign {
        Sign::Row(numbers) => atom(alloc, width, numbers),
        Sign::All(count) => Ok(Formula::All(members(alloc, width, made, count)?)),
        Sign::Any(count) => Ok(Formula::Any(members(alloc, width, made, count)?)),
    }
}

/// The formula with these signs, the first one's. Its rows must have the width.
pub fn formula(alloc: Global, width: usize, signs: &[Sign]) -> Result<Formula, RefuteFault>
    ensures { IfOk result (IsFormulaOver width) }
{
    let mut made = Vec::new(alloc);
    for place in 0..signs.len() {
        let formula = next(alloc, width, &mut made, signs[signs.len() - 1 - place])?;
        made.push(formula)?;
    }
    match made.pop() {
        Some(formula) => Ok(formula),
        None => Err(RefuteFault::Entry),
    }
}
