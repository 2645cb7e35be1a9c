//! What comes of parts that are put together.

use az_ast::{Program, ShapeFault, ShapeKind};
use az_lin::Limit;

#[derive(Clone, Copy, PartialEq, Eq)]
pub enum Answer {
    Program,
    Shape(ShapeKind, u32),
    Limit(Limit),
}

/// Want of memory is no answer.
pub fn answer_of(built: Result<Program, ShapeFault>) -> Result<Answer, ShapeFault> {
    match built {
        Ok(_) => Ok(Answer::Program),
        Err(ShapeFault::Shape { kind, item }) => Ok(Answer::Shape(kind, item)),
        Err(ShapeFault::Limit(limit)) => Ok(Answer::Limit(limit)),
        Err(ShapeFault::Memory) => Err(ShapeFault::Memory),
    }
}
