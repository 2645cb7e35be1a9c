//! The binary operators.

ghost use Rattle.std.specs.Prelude.{◌≡◌};
ghost use Rattle.az_ast.specs.Operators.{wrapped, applied, identity, FoldsFromIdentity};

/// An operator of an expression or of a reduction, over 64-bit two's complement words.
#[derive(Debug, Clone, Copy, PartialEq, Eq)]
pub enum Op {
    Add,
    Sub,
    Mul,
    And,
    Or,
    Xor,
    Max,
    Min,
}

/// The operator's value at two words, which wraps.
pub fn apply_op(op: Op, a: i64, b: i64) -> i64
    ensures { result ≡ applied op a b }
{
    match op {
        Op::Add => a.wrapping_add(b),
        Op::Sub => a.wrapping_sub(b),
        Op::Mul => a.wrapping_mul(b),
        Op::And => a & b,
        Op::Or => a | b,
        Op::Xor => a ^ b,
        Op::Max => a.max(b),
        Op::Min => a.min(b),
    }
}

/// The value of a reduction with this operator over no points.
pub fn identity_of(op: Op) -> i64
    requires { FoldsFromIdentity op }
    ensures { result ≡ identity op }
{
    match op {
        Op::Add | Op::Sub | Op::Or | Op::Xor => 0,
        Op::Mul => 1,
        Op::And => -1,
        Op::Max => i64::MIN,
        Op::Min => i64::MAX,
    }
}

/// The word that is congruent to the number modulo 2^64.
pub fn wrap(number: i128) -> i64
    ensures { result ≡ wrapped number }
{
    let word = number.rem_euclid(1 << 64) as u64;
    word.cast_signed()
}
