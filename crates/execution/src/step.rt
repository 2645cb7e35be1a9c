//! The body of an instance as a list of steps on a stack.

use az_ast::Op;

/// A constant and a loaded value go onto the stack; an operator takes its operands from there, the
/// right one first, and puts its value in their place.
#[derive(Debug, Clone, Copy, PartialEq, Eq)]
pub enum Step {
    Constant,
    Loaded,
    Negated,
    Binary(Op),
}
