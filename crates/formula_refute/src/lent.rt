//! Rows that are lent from a formula, seen as the list of the rows themselves.

ghost use Rattle.std.specs.Prelude.{◌≡◌, ◌++◌, ◌∷◌, [], OnOk, IfOk, IfErr};
ghost use Rattle.formula_refute.specs.declared.fault.RefuteFault.TheVariants.{Memory};

use crate::RefuteFault;
use crate::copy::copied;
use az_lin::Row;
use std::alloc::Global;
use std::marker::Model;

#[derive(Debug, Drop)]
pub(crate) struct LentRows<'a> {
    rows: Vec<&'a Row>,
}

impl<'a> Model for LentRows<'a> {
    ghost use Rattle.std.specs.Prelude.{List, map};
    ghost use Rattle.az_lin.specs.Affine.{Affine};

    ghost Value = { List Affine };

    ghost view = { λ lent. map (λ row. row.now) lent.rows.items };
}

impl<'a> LentRows<'a> {
    pub(crate) fn new(alloc: Global) -> LentRows<'a>
        ensures { result ≡ [] }
    {
        LentRows {
            rows: Vec::new(alloc),
        }
    }

    pub(crate) fn push(&mut self, row: &'a Row) -> Result<(), RefuteFault>
        ensures ok { OnOk result (self.new ≡ self.old ++ row.now ∷ []) }
        ensures cause { IfErr result (λ fault. fault ≡ Memory) }
    {
        self.rows.push(row)?;
        Ok(())
    }

    /// The rows in memory of their own.
    pub(crate) fn copies(&self, alloc: Global) -> Result<Vec<Row>, RefuteFault>
        ensures ok { IfOk result (λ rows. rows.items ≡ self.now) }
        ensures cause { IfErr result (λ fault. fault ≡ Memory) }
    {
        let mut rows = Vec::with_capacity(alloc, self.rows.len())?;
        'copies: for row in self.rows.as_slice() {
            rows.push(copied(alloc, row)?)?;
        }
        Ok(rows)
    }
}
