//! Rows as callers hand them in and take them out.

ghost use Rattle.std.specs.Prelude.{◌≡◌, All, map, IfOk, IfErr};
ghost use Rattle.farkas_find.specs.Rows.{affine_of, HasWideRow};
ghost use Rattle.farkas_find.specs.Stages.{given_rows};
ghost use Rattle.farkas_find.specs.Inner.Nexts.{GivenAnswers};
ghost use Rattle.farkas_find.specs.declared.fault.FindFault.TheVariants.{Memory};

use crate::FindFault;
use crate::fault::of_memory;
use crate::first_rows::{GivenRow, numbered_rows};
use crate::numbered::Numbered;
use az_lin::{ExactRow, List};
use std::alloc::Global;

/// A row whose entries lie within ±(2^127 - 1).
#[derive(Debug, Drop)]
pub struct WideRow {
    pub coefs: List<i128>,
    pub konst: i128,
}

impl GivenRow for WideRow {
    ghost affine = { affine_of };

    ghost valid = { HasWideRow };

    fn exact(&self, alloc: Global) -> Result<ExactRow, FindFault> {
        of_memory(ExactRow::new(alloc, self.coefs.as_slice(), self.konst))
    }
}

/// The rows, numbered from 0, if a stage may have so many.
pub(crate) fn given_rows(alloc: Global, rows: &[WideRow]) -> Result<Vec<Numbered>, FindFault>
    requires { All HasWideRow rows.now }
    ensures { GivenAnswers (given_rows (map affine_of rows.now)) result }
{
    numbered_rows(alloc, rows)
}

fn wide(alloc: Global, row: &ExactRow) -> Result<WideRow, FindFault>
    ensures ok { IfOk result (λ got. affine_of got ≡ row.now) }
    ensures cause { IfErr result (λ fault. fault ≡ Memory) }
{
    let coefs = List::from_vec(Vec::from_slice(alloc, row.coefs())?);
    Ok(WideRow {
        coefs,
        konst: row.konst(),
    })
}

/// The rows without their numbers.
pub(crate) fn unnumbered(alloc: Global, rows: &[Numbered]) -> Result<List<WideRow>, FindFault>
    ensures ok { IfOk result (λ got. map affine_of got ≡ map (λ it. it.row) rows.now) }
    ensures cause { IfErr result (λ fault. fault ≡ Memory) }
{
    let mut plain = Vec::with_capacity(alloc, rows.len())?;
    'rows: for it in rows {
        plain.push(wide(alloc, &it.row)?)?;
    }
    Ok(List::from_vec(plain))
}
