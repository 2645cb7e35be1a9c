//! What a row is made of, and its entries.

ghost use Rattle.std.specs.Prelude.{◌≡◌, ◌||◌, pos, ◌≤ℤ◌, Some, None, if◌then◌else◌, false, IfOk, IfErr};
ghost use Rattle.std.specs.List.{list_any};
ghost use Rattle.az_lin.specs.declared.fault.LinFault.TheVariants.{Memory};
ghost use Rattle.side_rows.specs.Columns.{column_of};
ghost use Rattle.side_rows.specs.Sides.{entry_of, gap_of, row_of, less, alone};
ghost use Rattle.side_rows.specs.Entries.{is_out, has_entry_out};
ghost use Rattle.side_rows.specs.Scopes.{is_unknown_in};

use crate::column::Column;
use crate::scope::Scope;
use crate::total::{entry, sum};
use crate::unknown::some_unknown;
use az_lin::{LinFault, Name, Row};
use grammar_rules::Term;
use std::alloc::Global;
use std::marker::Model;

/// One side less another, and less 1 where it is strict.
#[derive(Drop)]
pub struct Difference<'a> {
    left: &'a [Term],
    right: &'a [Term],
    strict: bool,
}

impl<'a> Model for Difference<'a> {
    ghost use Rattle.side_rows.specs.Sides as sides;

    ghost Value = { sides.Difference };

    ghost view = { λ d. record { left = d.left.now; right = d.right.now; strict = d.strict } };
}

/// What the constant of a strict row is less by.
fn gap(column: Column<'_>, strict: bool) -> i128
    ensures value { result ≡ gap_of (column_of column.entry) strict }
    ensures range { (pos 0 ≤ℤ result) × (result ≤ℤ pos 1) }
{
    match column {
        Column::Constant if strict => 1,
        _ => 0,
    }
}

impl<'a> Difference<'a> {
    pub fn new(left: &'a [Term], right: &'a [Term], strict: bool) -> Difference<'a>
        ensures { result ≡ less left.now right.now strict }
    {
        Difference {
            left,
            right,
            strict,
        }
    }

    /// The row of a side alone.
    pub fn alone(side: &'a [Term]) -> Difference<'a>
        ensures { result ≡ alone side.now }
    {
        Difference::new(side, &[], false)
    }

    /// The entry of a column, if it is in range.
    fn entry(&self, column: Column<'_>) -> Option<i128>
        ensures { let number = entry_of self.now (column_of column.entry) in result ≡ (if is_out number then None else Some number) }
    {
        let left = sum(self.left, column);
        let right = sum(self.right, column);
        entry(
            left.high - right.high,
            left.low - right.low - gap(column, self.strict),
        )
    }

    fn is_out(&self, column: Column<'_>) -> bool
        ensures { result ≡ is_out (entry_of self.now (column_of column.entry)) }
    {
        self.entry(column).is_none()
    }

    fn has_coef_out(&self, names: &[&Name]) -> bool
        ensures { result ≡ list_any (λ name. is_out (entry_of self.now (Some name.now))) names.now }
    {
        names.iter().any(|name| self.is_out(Column::Named(name)))
    }

    /// Whether the row over a scope has an entry out of range.
    pub fn is_wide(&self, scope: &Scope<'_>) -> bool
        ensures { result ≡ has_entry_out (row_of scope.now self.now) }
    {
        self.has_coef_out(scope.names()) || self.is_out(Column::Constant)
    }

    fn fitting(&self, column: Column<'_>) -> i128
        requires { is_out (entry_of self.now (column_of column)) ≡ false }
        ensures { result ≡ entry_of self.now (column_of column.entry) }
    {
        self.entry(column).unwrap_or(0)
    }

    /// Whether a side has a name that is none of the scope's.
    pub fn is_unknown(&self, scope: &Scope<'_>) -> bool
        ensures { result ≡ (list_any (is_unknown_in scope.now) self.now.left || list_any (is_unknown_in scope.now) self.now.right) }
    {
        some_unknown(scope, self.left) || some_unknown(scope, self.right)
    }

    /// The coefficients by column, which are in range.
    fn coefs(&self, alloc: Global, scope: &Scope<'_>) -> Result<Vec<i128>, LinFault>
        requires { has_entry_out (row_of scope.now self.now) ≡ false }
        ensures ok { IfOk result (λ coefs. coefs.items ≡ (row_of scope.now self.now).coefs) }
        ensures cause { IfErr result (λ fault. fault ≡ Memory) }
    {
        let mut coefs = Vec::with_capacity(alloc, scope.len())?;
        'columns: for name in scope.names() {
            coefs.push(self.fitting(Column::Named(name)))?;
        }
        Ok(coefs)
    }

    /// The row over a scope, whose entries are in range.
    pub fn row(&self, alloc: Global, scope: &Scope<'_>) -> Result<Row, LinFault>
        requires { has_entry_out (row_of scope.now self.now) ≡ false }
        ensures ok { IfOk result (λ row. row ≡ row_of scope.now self.now) }
        ensures cause { IfErr result (λ fault. fault ≡ Memory) }
    {
        let coefs = self.coefs(alloc, scope)?;
        let konst = self.fitting(Column::Constant);
        Row::new(alloc, coefs.as_slice(), konst)
    }
}
