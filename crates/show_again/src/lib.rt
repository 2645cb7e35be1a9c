//! What is shown of a program is read as the same program.
//!
//! `specs/Again.antt` has the law.
#![tactic(auto)]

ghost use Rattle.show_again.specs.Again.{ShownIsTheProgram};

/// What is shown of a program that can be written is a text of exactly that program.
pub fn shown_is_the_program()
    ensures { ShownIsTheProgram }
{}
