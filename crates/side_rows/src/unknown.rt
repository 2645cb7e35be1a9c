//! Names that no column of a scope has.

ghost use Rattle.std.specs.Prelude.{◌≡◌, not, false};
ghost use Rattle.std.specs.List.{list_any};
ghost use Rattle.std.specs.Option.{option_map_or};
ghost use Rattle.std.specs.Str.{bytes_eq};
ghost use Rattle.side_rows.specs.Scopes.{is_unknown_in};

use crate::Scope;
use grammar_rules::Term;

/// Whether a term has a name that is none of the scope's.
pub fn is_unknown_in(scope: &Scope<'_>, term: &Term) -> bool
    ensures { result ≡ is_unknown_in scope.now term.now }
{
    match &term.name {
        Some(name) => !scope.has(name.as_str()),
        None => false,
    }
}

/// Whether a side has a name that is none of the scope's.
pub fn some_unknown(scope: &Scope<'_>, side: &[Term]) -> bool
    ensures { result ≡ list_any (is_unknown_in scope.now) side.now }
{
    side.iter().any(|term| is_unknown_in(scope, term))
}
