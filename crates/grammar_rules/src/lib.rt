//! A small theory of grammar rules over any items, and the cursor that readers move over them; for the items
//! that are tokens, what readers of programs and scripts share.
//!
//! `specs/Rules.antt` has the ways of building a rule, with what it takes and its fronts,
//! `specs/Readers.antt` the readers as functions on lists, and `specs/Exactness.antt` what it means
//! that a reader follows a rule exactly. The laws in `proofs/` prove that once for each way.
#![tactic(auto)]

pub mod classes;
mod comma_lists;
mod cursor;
mod decimal;
mod ending;
mod fault;
mod line;
mod look_ahead;
mod marks;
mod name_lists;
mod repetition;
mod sides;
mod term;
mod text;
mod words;

pub use comma_lists::{items, some_items};
pub use cursor::{Cursor, TokenCursor};
pub use decimal::{
    Integer, Natural, integers_are_one, naturals_are_one, read_integer, read_natural,
};
pub use ending::finish;
pub use fault::{ReadError, TextFault};
pub use line::{Line, Lines, behind, cut_lines, lines_are_one};
pub use name_lists::{indices, name, names};
pub use repetition::members;
pub use sides::{affine, affines, rows_in_brackets, sign};
pub use term::Term;
pub use text::placed;
