//! Laws of the grammar, carried by calls.

ghost use Rattle.program_grammar.specs.Printed.{PrintedRulesAreSame};

/// The rules that are written so that one token decides take the same as the printed ones.
pub fn printed_rules_are_same()
    ensures { PrintedRulesAreSame }
{}
