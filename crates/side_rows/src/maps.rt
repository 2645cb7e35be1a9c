//! Rows and maps of sides, over a scope.

ghost use Rattle.std.specs.Prelude.{◌≡◌, false, map, IfOk, IfErr};
ghost use Rattle.std.specs.List.{list_any};
ghost use Rattle.az_lin.specs.declared.fault.LinFault.TheVariants.{Memory};
ghost use Rattle.side_rows.specs.Entries.{has_entry_out};
ghost use Rattle.side_rows.specs.Sides.{row_of, alone, map_of};

use crate::difference::Difference;
use crate::scope::Scope;
use az_lin::{LinFault, List, Map, Row};
use grammar_rules::Term;
use std::alloc::Global;

/// The rows of sides, whose entries are in range.
pub fn rows_of_sides(
    alloc: Global,
    scope: &Scope<'_>,
    sides: &[List<Term>],
) -> Result<List<Row>, LinFault>
    requires { list_any (λ side. has_entry_out (row_of scope.now (alone side))) sides.now ≡ false }
    ensures ok { IfOk result (λ rows. rows ≡ map (λ side. row_of scope.now (alone side)) sides.now) }
    ensures cause { IfErr result (λ fault. fault ≡ Memory) }
{
    let mut rows = Vec::with_capacity(alloc, sides.len())?;
    'sides: for side in sides {
        let difference = Difference::alone(side.as_slice());
        rows.push(difference.row(alloc, scope)?)?;
    }
    Ok(List::from_vec(rows))
}

/// The map of sides, whose entries are in range.
pub fn map_of(alloc: Global, scope: &Scope<'_>, sides: &[List<Term>]) -> Result<Map, LinFault>
    requires { list_any (λ side. has_entry_out (row_of scope.now (alone side))) sides.now ≡ false }
    ensures ok { IfOk result (λ f. f ≡ map_of scope.now sides.now) }
    ensures cause { IfErr result (λ fault. fault ≡ Memory) }
{
    let rows = rows_of_sides(alloc, scope, sides)?;
    Ok(Map::new(scope.len(), rows))
}
