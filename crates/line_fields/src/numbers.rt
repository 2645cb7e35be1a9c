//! Numbers at the front of a line, and alone on it.

ghost use Rattle.std.specs.Prelude.{◌≡◌, ◌≢◌, ◌<◌, ◌^◌, List, ℕ, ℤ, MatchOption};
ghost use Rattle.std.specs.Fmt.{decimal, signed_decimal};
ghost use Rattle.line_fields.specs.Fields.{IsWide, spaced};

use grammar_rules::{Integer, Natural, behind, read_integer, read_natural};

/// One more than the greatest number of 32 bits.
const TOO_GREAT: u128 = 1 << 32;

/// The number of 32 bits at the front of the line, where a space stands behind it.
pub fn spaced_natural(line: &[u8]) -> Option<Natural<'_>>
    ensures { MatchOption result ((n : ℕ) (rest : List ℕ) → n < 2 ^ 32 → line.now ≢ spaced (decimal n) rest)
        (λ got. (got.value < 2 ^ 32) × (line.now ≡ spaced (decimal got.value) got.rest.now)) }
{
    let Some(number) = read_natural(line) else {
        return None;
    };
    if number.value >= TOO_GREAT {
        return None;
    }
    match behind(number.rest, b" ") {
        Some(rest) => Some(Natural {
            value: number.value,
            rest,
        }),
        None => None,
    }
}

/// The number within ±(2^127 - 1) at the front of the line, where a space stands behind it.
pub fn spaced_integer(line: &[u8]) -> Option<Integer<'_>>
    ensures { MatchOption result ((z : ℤ) (rest : List ℕ) → IsWide z → line.now ≢ spaced (signed_decimal z) rest)
        (λ got. IsWide got.value × (line.now ≡ spaced (signed_decimal got.value) got.rest.now)) }
{
    let Some(number) = read_integer(line) else {
        return None;
    };
    if number.value == i128::MIN {
        return None;
    }
    match behind(number.rest, b" ") {
        Some(rest) => Some(Integer {
            value: number.value,
            rest,
        }),
        None => None,
    }
}

/// The number of 32 bits that the line is.
pub fn last_natural(line: &[u8]) -> Option<u32>
    ensures { MatchOption result ((n : ℕ) → n < 2 ^ 32 → line.now ≢ decimal n) (λ n. line.now ≡ decimal n) }
{
    let Some(number) = read_natural(line) else {
        return None;
    };
    if number.value >= TOO_GREAT {
        return None;
    }
    if !number.rest.is_empty() {
        return None;
    }
    Some(number.value as u32)
}

/// The number within ±(2^127 - 1) that the line is.
pub fn last_integer(line: &[u8]) -> Option<i128>
    ensures { MatchOption result ((z : ℤ) → IsWide z → line.now ≢ signed_decimal z) (λ z. IsWide z × (line.now ≡ signed_decimal z)) }
{
    let Some(number) = read_integer(line) else {
        return None;
    };
    if number.value == i128::MIN {
        return None;
    }
    if !number.rest.is_empty() {
        return None;
    }
    Some(number.value)
}
