//! Operators and constants of a program, from those of a text.

ghost use Rattle.std.specs.Prelude.{◌≡◌, false};
ghost use Rattle.program_names.specs.Pieces as pieces;
ghost use Rattle.program_names.specs.Refusals.{is_wide_literal};
ghost use Rattle.program_names.specs.Resolved.{op_of};
ghost use Rattle.program_names.specs.Sides.{signed};

use az_ast::Op;
use program_grammar::Operator;

pub(crate) fn op_of(operator: Operator) -> Op
    ensures { result ≡ op_of operator }
{
    match operator {
        Operator::Add => Op::Add,
        Operator::Subtract => Op::Sub,
        Operator::Multiply => Op::Mul,
        Operator::Max => Op::Max,
        Operator::Min => Op::Min,
        Operator::And => Op::And,
        Operator::Or => Op::Or,
        Operator::Xor => Op::Xor,
    }
}

/// The constant, which is in range.
pub(crate) fn constant(negative: bool, number: u128) -> i64
    requires { is_wide_literal (pieces.number negative number) ≡ false }
    ensures { result ≡ signed negative number }
{
    if negative {
        (-(number as i128)) as i64
    } else {
        number as i64
    }
}
