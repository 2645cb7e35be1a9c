//! What is written of a program with names means that program: its columns and variables come back as the same
//! numbers, and its rows as the same rows.
//!
//! `specs/Kept.antt` has the law.
#![tactic(auto)]

ghost use Rattle.show_means.specs.Kept.{WrittenMeansTheProgram};

/// What is written of a program means that program.
pub fn written_means_the_program()
    ensures { WrittenMeansTheProgram }
{}
