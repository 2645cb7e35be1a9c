//! Numbers for the cells in which the instances of a program are kept.
//!
//! `specs/Numbering.antt` has the numbers, `specs/Answers.antt` what numbering answers, `specs/Laws.antt` that two
//! instances have one number exactly where they are kept in one cell.
#![tactic(auto)]

mod laws;
mod numbering;
mod numbers;
mod range;
mod sharing;
mod side;

pub use laws::cells_are_kept_apart;
pub use numbering::{Kept, cells};
pub use numbers::{Cells, Home};
pub use range::Range;
pub use side::Side;
