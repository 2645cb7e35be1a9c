//! From a map as written to the map that it means.

ghost use Rattle.std.specs.Prelude.{◌≡◌, Ok, IfOk, IfErr};
ghost use Rattle.az_lin.specs.declared.fault.LinFault.TheVariants as lin;
ghost use Rattle.command_script.specs.declared.resolution.ResolveFault.TheVariants.{Memory};
ghost use Rattle.std.specs.List.{list_any};
ghost use Rattle.command_script.specs.Resolved.{Resolves};
ghost use Rattle.side_rows.specs.Entries.{has_entry_out};
ghost use Rattle.side_rows.specs.Sides.{alone, row_of};

use crate::names::{first_twice, first_unknown};
use crate::sides::sides;
use az_lin::{LinFault, List, Map, Name, TryCopy};
use grammar_rules::Term;
use script_grammar::MapText;
use side_rows::{Difference, Scope, joined, map_of};
use std::alloc::Global;

/// Why a map as written means no map.
#[derive(Drop)]
pub enum ResolveFault {
    /// The first name in its rows that is no parameter and no index.
    Unknown(Name),
    /// The first index that has the name of a parameter or of an earlier index.
    Twice(Name),
    /// An entry of a row lies outside ±(2^60 - 1).
    Entry,
    /// Memory ran out.
    Memory,
}

/// The same of a call that answers want of memory alone.
fn of_memory<A: Drop>(made: Result<A, LinFault>) -> Result<A, ResolveFault>
    requires { IfErr made (λ fault. fault ≡ lin.Memory) }
    ensures ok { IfOk result (λ value. made ≡ Ok value) }
    ensures cause { IfErr result (λ fault. fault ≡ Memory) }
{
    match made {
        Ok(value) => Ok(value),
        Err(_) => Err(ResolveFault::Memory),
    }
}

fn some_row_out(scope: &Scope<'_>, sides: &[List<Term>]) -> bool
    ensures { result ≡ list_any (λ side. has_entry_out (row_of scope.now (alone side))) sides.now }
{
    sides
        .iter()
        .any(|side| Difference::alone(side.as_slice()).is_wide(scope))
}

/// The map of a map as written, over the parameters and then its own indices, or the first of these: a name
/// that is none of them, an index that stands twice, an entry out of range.
pub fn resolve_map(alloc: Global, map: &MapText, params: &[Name]) -> Result<Map, ResolveFault>
    ensures { Resolves params.now map.now result }
{
    let indices = map.indices.as_slice();
    let scope = of_memory(joined(alloc, params, indices))?;
    let sides = of_memory(sides(alloc, map.rows.as_slice()))?;
    if let Some(name) = first_unknown(&scope, sides.as_slice()) {
        return Err(ResolveFault::Unknown(of_memory(name.copy(alloc))?));
    }
    if let Some(name) = first_twice(params, indices) {
        return Err(ResolveFault::Twice(of_memory(name.copy(alloc))?));
    }
    if some_row_out(&scope, sides.as_slice()) {
        return Err(ResolveFault::Entry);
    }
    let meant = of_memory(map_of(alloc, &scope, sides.as_slice()))?;
    Ok(meant)
}
