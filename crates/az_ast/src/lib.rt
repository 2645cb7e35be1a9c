//! Systems of affine equations over integer domains: the types of a program, and what it means.
//!
//! `specs/Meaning.antt` says which value an output or local has at a point.
#![tactic(auto)]

mod checked;
mod copy;
mod draft;
mod expr;
mod fault;
mod index_name;
mod inputs;
mod items;
mod limits;
mod op;
mod program;
mod reason;
mod rows;
mod shape;
mod sought_parts;
mod table;
mod walk;

pub use checked::Checked;
pub use expr::{Branch, Expr};
pub use fault::{ShapeFault, ShapeKind};
pub use index_name::is_index_name;
pub use inputs::{Inputs, Values};
pub use op::{Op, apply_op, identity_of, wrap};
pub use program::{Equation, Program, Role, Variable};
pub use reason::Reason;
pub use table::Table;
pub use walk::{Access, PartTest, accesses, is_under, nodes_left, some_part};
