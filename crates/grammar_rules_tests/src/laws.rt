//! Laws of the example, carried by calls.

ghost use Rattle.grammar_rules_tests.specs.Sums.{LinesAreRead};
ghost use Rattle.grammar_rules_tests.specs.WordLines.{WordLinesAreTaken};

/// Lines of sums are read exactly, each with a limit of its own.
pub fn lines_are_read()
    ensures { LinesAreRead }
{}

/// Lines that were written as words of a table are read as what they were written for.
pub fn word_lines_are_taken()
    ensures { WordLinesAreTaken }
{}
