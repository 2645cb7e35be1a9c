//! What the names of a map are refused for.

ghost use Rattle.std.specs.Prelude.{◌≡◌};
ghost use Rattle.std.specs.List.{find};
ghost use Rattle.std.specs.Option.{option_copied};
ghost use Rattle.command_script.specs.Resolved.{unknown_in, first_unknown, first_twice};
ghost use Rattle.side_rows.specs.Scopes.{is_unknown_in};

use az_lin::{List, Name};
use grammar_rules::Term;
use side_rows::{Scope, is_in, is_unknown_in};

fn unknown_term<'a>(scope: &Scope<'_>, side: &'a [Term]) -> Option<&'a Term>
    ensures { option_copied result ≡ find (is_unknown_in scope.now) side.now }
{
    side.iter().find(|term| is_unknown_in(scope, term))
}

fn unknown_in<'a>(scope: &Scope<'_>, side: &'a [Term]) -> Option<&'a Name>
    ensures { option_copied result ≡ unknown_in scope.now side.now }
{
    match unknown_term(scope, side) {
        Some(
            Term {
                name: Some(name),
                ..
            },
        ) => Some(name),
        _ => None,
    }
}

/// The first name that none of the scope's columns has.
pub(crate) fn first_unknown<'a>(scope: &Scope<'_>, sides: &'a [List<Term>]) -> Option<&'a Name>
    ensures { option_copied result ≡ first_unknown scope.now sides.now }
{
    'sides: for side in sides {
        if let Some(name) = unknown_in(scope, side.as_slice()) {
            return Some(name);
        }
    }
    None
}

/// The first index that is a parameter or an earlier index.
pub(crate) fn first_twice<'a>(params: &[Name], indices: &'a [Name]) -> Option<&'a Name>
    ensures { option_copied result ≡ first_twice params.now indices.now }
{
    'indices: for place in 0..indices.len() {
        let name = indices[place].as_str();
        if is_in(params, name) || is_in(&indices[..place], name) {
            return Some(&indices[place]);
        }
    }
    None
}
