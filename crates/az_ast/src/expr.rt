//! Expressions. The columns of their rows are the parameters, the equation's indices, and the
//! extra indices of the enclosing reductions from outside to inside.

use crate::Op;
use az_lin::{Domain, Map, Row};
use sqlite_items::{Boxed, Items};

#[cycle(expr)]
#[derive(Debug, Drop)]
pub enum Expr {
    Const(i64),
    /// The row's value, as the 64-bit word that is congruent to it.
    Index(Row),
    /// The variable with this number, at the image of the point.
    Access(u32, Map),
    Neg(Boxed<Expr>),
    Bin(Op, Boxed<Expr>, Boxed<Expr>),
    /// The first branch whose domain holds the point.
    Cases(Items<Branch>),
    /// The operator's fold of the body over as many extra indices, within the domain.
    Reduce(Op, u32, Domain, Boxed<Expr>),
}

#[cycle(expr)]
#[derive(Debug, Drop)]
pub struct Branch {
    pub domain: Domain,
    pub body: Expr,
}
