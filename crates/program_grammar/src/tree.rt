//! A program as its text has it: with names, and with chains and signs as written.

use az_lin::{List, Name};
use grammar_rules::Term;
use sqlite_items::{Boxed, Items};

/// `<=`, `<`, `>=`, `>`, and `=` or `==`.
#[derive(Clone, Copy, PartialEq, Eq)]
pub enum Relation {
    AtMost,
    Below,
    AtLeast,
    Above,
    Equal,
}

#[derive(Drop)]
pub struct Link {
    pub relation: Relation,
    pub side: List<Term>,
}

/// `0<=i<N`: sides, with relations between neighbours. There is a link.
#[derive(Drop)]
pub struct Chain {
    pub first: List<Term>,
    pub links: List<Link>,
}

/// An operator of an expression or of a reduction.
#[derive(Clone, Copy, PartialEq, Eq)]
pub enum Operator {
    Add,
    Subtract,
    Multiply,
    Max,
    Min,
    And,
    Or,
    Xor,
}

#[cycle(expr)]
#[derive(Drop)]
pub enum Expr {
    /// A number, with whether a minus stands before it.
    Constant(bool, u128),
    Index(List<Term>),
    /// The named variable, at these rows.
    Access(Name, List<List<Term>>),
    Negation(Boxed<Expr>),
    Binary(Operator, Boxed<Expr>, Boxed<Expr>),
    Cases(Items<Branch>),
    /// Its extra indices, the chains of its domain, and its body.
    Reduction(Operator, List<Name>, List<Chain>, Boxed<Expr>),
}

/// A body under a domain of one or more lists of chains.
#[cycle(expr)]
#[derive(Drop)]
pub struct Branch {
    pub disjuncts: List<List<Chain>>,
    pub body: Expr,
}

#[derive(Drop)]
pub struct Declaration {
    pub name: Name,
    pub indices: List<Name>,
    pub disjuncts: List<List<Chain>>,
}

#[derive(Drop)]
pub struct Equation {
    pub variable: Name,
    pub indices: List<Name>,
    pub body: Expr,
}

#[derive(Drop)]
pub struct ProgramText {
    pub name: Name,
    pub params: List<Name>,
    /// The chains of the parameter domain.
    pub domain: List<Chain>,
    pub inputs: List<Declaration>,
    pub outputs: List<Declaration>,
    pub locals: List<Declaration>,
    pub equations: List<Equation>,
}
