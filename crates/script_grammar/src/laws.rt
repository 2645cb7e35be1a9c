//! Laws of the grammar, carried by calls.

ghost use Rattle.script_grammar.specs.Laws.{NoScriptIsHeavy, NumbersStay};

/// No list of tokens is too heavy for a script.
pub fn no_script_is_heavy()
    ensures { NoScriptIsHeavy }
{}

/// The numbers of a text's tokens are below 2^127, so that their values are as they are written.
pub fn numbers_stay_as_they_are()
    ensures { NumbersStay }
{}
