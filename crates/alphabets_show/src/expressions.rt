//! Expressions.

ghost use Rattle.std.specs.Prelude.{◌≡◌, ◌+◌, ◌<◌, ◌^◌, ◌++◌, ◌∷◌, [], OnOk, string_bytes};
ghost use Rattle.az_ast.specs.Term.{term};
ghost use Rattle.az_ast.specs.Walks.{extra_under};
ghost use Rattle.az_text.specs.Lumps.{bytes_of};
ghost use Rattle.alphabets_show.specs.Pieces.{word, in_brackets};
ghost use Rattle.alphabets_show.specs.Sides.{affine, affines};
ghost use Rattle.alphabets_show.specs.Expressions.{operator, name_of, expression};
ghost use Rattle.alphabets_show.specs.Inner.{before_left, before_right, reduction_head};

use crate::domains::push_restriction;
use crate::names::push_indices;
use crate::sides::{push_affine, push_affines};
use az_ast::{Expr, Op, Variable};
use az_lin::{Domain, Map, Name, Row};
use std::alloc::AllocError;

/// The parameters and the variables of a program, by which its expressions are shown.
#[derive(Clone, Copy)]
pub(crate) struct Declared<'a> {
    pub params: &'a [Name],
    pub variables: &'a [Variable],
}

fn before_left(op: Op) -> &'static str
    ensures { result.now ≡ before_left op }
{
    match op {
        Op::Add | Op::Sub | Op::Mul => "(",
        Op::And => "and(",
        Op::Or => "or(",
        Op::Xor => "xor(",
        Op::Max => "max(",
        Op::Min => "min(",
    }
}

fn before_right(op: Op) -> &'static str
    ensures { result.now ≡ before_right op }
{
    match op {
        Op::Add => " + ",
        Op::Sub => " - ",
        Op::Mul => " * ",
        Op::And | Op::Or | Op::Xor | Op::Max | Op::Min => ", ",
    }
}

/// The operator of a reduction.
fn operator(op: Op) -> &'static str
    ensures { result.now ≡ bytes_of (operator op ∷ []) }
{
    match op {
        Op::Add => "+",
        Op::Sub => "-",
        Op::Mul => "*",
        Op::And => "and",
        Op::Or => "or",
        Op::Xor => "xor",
        Op::Max => "max",
        Op::Min => "min",
    }
}

/// The name of the variable with this number.
pub(crate) fn push_variable(
    text: &mut String,
    variables: &[Variable],
    x: u32,
) -> Result<(), AllocError>
    ensures ok { OnOk result (string_bytes text.new ≡ string_bytes text.old ++ name_of variables.now x) }
{
    match variables.get(x as usize) {
        Some(variable) => text.push_str(variable.name.as_str()),
        None => Ok(()),
    }
}

#[tactic(auto, using(crate::proofs::Texts::lumps_joined))]
fn push_index(text: &mut String, params: &[Name], row: &Row) -> Result<(), AllocError>
    ensures ok { OnOk result (string_bytes text.new ≡ string_bytes text.old ++ bytes_of (in_brackets (affine params.now row.now))) }
{
    text.push_str("[")?;
    push_affine(text, params, row)?;
    text.push_str("]")
}

#[tactic(auto, using(crate::proofs::Texts::lumps_joined))]
fn push_access(text: &mut String, declared: Declared<'_>, x: u32, f: &Map) -> Result<(), AllocError>
    ensures ok { OnOk result (string_bytes text.new ≡ string_bytes text.old ++ bytes_of (word (name_of declared.entry.variables.now x) ∷ in_brackets (affines declared.entry.params.now f.now.rows))) }
{
    push_variable(text, declared.variables, x)?;
    text.push_str("[")?;
    push_affines(text, declared.params, f.rows())?;
    text.push_str("]")
}

/// A reduction up to its body.
#[tactic(auto, using(crate::proofs::Texts::lumps_joined))]
fn push_reduction(
    text: &mut String,
    params: &[Name],
    op: Op,
    from: usize,
    extra: usize,
    domain: &Domain,
) -> Result<(), AllocError>
    requires { from + extra < 2 ^ 64 }
    ensures ok { OnOk result (string_bytes text.new ≡ string_bytes text.old ++ bytes_of (reduction_head params.now op from extra domain.now)) }
{
    text.push_str("reduce(")?;
    text.push_str(operator(op))?;
    text.push_str(", [")?;
    push_indices(text, from, extra)?;
    text.push_str("], ")?;
    push_restriction(text, params, domain)?;
    text.push_str(" : ")
}

/// An expression under so many indices.
#[tactic(auto, using(crate::proofs::Texts::lumps_joined))]
pub(crate) fn push_expression(
    text: &mut String,
    declared: Declared<'_>,
    e: &Expr,
    count: usize,
) -> Result<(), AllocError>
    requires { count + extra_under (term e.now) < 2 ^ 64 }
    ensures ok { OnOk result (string_bytes text.new ≡ string_bytes text.old ++ bytes_of (expression declared.entry.params.now declared.entry.variables.now (term e.now) count)) }
{
    match e {
        Expr::Const(value) => {
            let value = *value;
            write!(text, "{value}")
        }
        Expr::Index(row) => push_index(text, declared.params, row),
        Expr::Access(x, f) => push_access(text, declared, *x, f),
        Expr::Neg(e) => {
            text.push_str("-(")?;
            push_expression(text, declared, e.get(), count)?;
            text.push_str(")")
        }
        Expr::Bin(op, a, b) => {
            text.push_str(before_left(*op))?;
            push_expression(text, declared, a.get(), count)?;
            text.push_str(before_right(*op))?;
            push_expression(text, declared, b.get(), count)?;
            text.push_str(")")
        }
        Expr::Cases(branches) => {
            text.push_str("case ")?;
            for branch in branches.as_slice() {
                push_restriction(text, declared.params, &branch.domain)?;
                text.push_str(" : ")?;
                push_expression(text, declared, &branch.body, count)?;
                text.push_str("; ")?;
            }
            text.push_str("esac")
        }
        Expr::Reduce(op, extra, domain, e) => {
            let extra = *extra as usize;
            push_reduction(text, declared.params, *op, count, extra, domain)?;
            push_expression(text, declared, e.get(), count + extra)?;
            text.push_str(")")
        }
    }
}
