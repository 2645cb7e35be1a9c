//! Words about the bodies and cells of a plan: the definitions that those who make its parts share.
//!
//! `specs/Makes.antt` has the value of a body in which the reads have given values, `specs/Cells.antt` which
//! instances are kept in one cell.
#![tactic(auto)]
