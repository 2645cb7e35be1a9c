//! The rows that the first stage is given.

ghost use Rattle.std.specs.Prelude.{◌≡◌, ◌≤◌, length, map, IfOk, OnOk, IfErr, All};
ghost use Rattle.az_lin.specs.Affine.{Affine};
ghost use Rattle.az_lin.specs.Combination.{HasWideEntries};
ghost use Rattle.farkas_find.specs.Combining.{numbered_from};
ghost use Rattle.farkas_find.specs.Stages.{given_rows};
ghost use Rattle.farkas_find.specs.Inner.Nexts.{GivenAnswers};
ghost use Rattle.farkas_find.specs.declared.fault.FindFault.TheVariants.{Memory};

use crate::FindFault;
use crate::next::MOST_ROWS;
use crate::numbered::Numbered;
use az_lin::{ExactRow, Limit};
use std::alloc::Global;

pub(crate) trait GivenRow {
    ghost affine: { Self → Affine };

    ghost valid: { Self → Type 0 };

    /// A copy, whose entries are no wider than those of rows on the way may be.
    fn exact(&self, alloc: Global) -> Result<ExactRow, FindFault>
        requires { valid self.now }
        ensures ok { IfOk result (λ row. row ≡ affine self.now) }
        ensures range { OnOk result (HasWideEntries (affine self.now)) }
        ensures cause { IfErr result (λ fault. fault ≡ Memory) };
}

fn numbered<G: GivenRow>(alloc: Global, rows: &[G]) -> Result<Vec<Numbered>, FindFault>
    requires valid { All G.valid rows.now }
    requires few { length rows.now ≤ 20000 }
    ensures ok { IfOk result (λ got. got.items ≡ numbered_from 0 (map G.affine rows.now)) }
    ensures range { OnOk result (All HasWideEntries (map G.affine rows.now)) }
    ensures cause { IfErr result (λ fault. fault ≡ Memory) }
{
    let mut numbered = Vec::with_capacity(alloc, rows.len())?;
    'rows: for place in 0..rows.len() {
        let row = rows[place].exact(alloc)?;
        numbered.push(Numbered {
            row,
            number: place as u32,
        })?;
    }
    Ok(numbered)
}

/// The rows, numbered from 0, if a stage may have so many.
pub(crate) fn numbered_rows<G: GivenRow>(
    alloc: Global,
    rows: &[G],
) -> Result<Vec<Numbered>, FindFault>
    requires { All G.valid rows.now }
    ensures answer { GivenAnswers (given_rows (map G.affine rows.now)) result }
    ensures range { OnOk result (All HasWideEntries (map G.affine rows.now)) }
{
    if rows.len() > MOST_ROWS {
        return Err(FindFault::Limit(Limit::Rows));
    }
    numbered(alloc, rows)
}
