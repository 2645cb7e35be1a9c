//! What is shown of a program is a sentence of the grammar, which says that program with its names.
//!
//! `specs/Showable.antt` has the law, and `specs/WrittenOf.antt` the program with its names.
#![tactic(auto)]

ghost use Rattle.show_grammar.specs.Showable.{ShownIsASentence};

/// What is shown of a program is a sentence, of that program as it is written.
pub fn shown_is_a_sentence()
    ensures { ShownIsASentence }
{}
