//! Whole numbers in decimal at the front of a line. Each has one spelling: no leading zero, and no `-0`.

ghost use Rattle.std.specs.Prelude.{◌≡◌, ◌<◌, ◌≤◌, ◌^◌, ◌↔◌, List, ℕ, ℤ, pos, neg_ℤ, IsTrue, MatchOption, SomeIff, length, slice_index};
ghost use Rattle.std.specs.Char.{is_ascii_digit};
ghost use Rattle.std.specs.List.{prefix_len};
ghost use Rattle.std.specs.Str.Parse.{digits_value};
ghost use Rattle.az_text.specs.Tokens.{AllAre};
ghost use Rattle.grammar_rules.specs.Decimals.{BeginsWithNatural, BeginsWithInteger, NaturalsAreOne, IntegersAreOne};

use crate::behind;

/// A natural number, and what stands behind it.
#[derive(Debug, Drop)]
pub struct Natural<'a> {
    pub value: u128,
    pub rest: &'a [u8],
}

/// A number with its sign, and what stands behind it.
#[derive(Debug, Drop)]
pub struct Integer<'a> {
    pub value: i128,
    pub rest: &'a [u8],
}

/// The magnitude of the least number of 128 bits.
const MOST_BELOW: u128 = 1 << 127;

fn digits_len(line: &[u8]) -> usize
    ensures passing { result ≡ prefix_len is_ascii_digit line.now }
    ensures within { result ≤ length line.now }
{
    line.iter().take_while(|byte| byte.is_ascii_digit()).count()
}

/// Whether there is a digit, and no needless 0 before others.
fn is_plain(digits: &[u8]) -> bool
    ensures { IsTrue result ↔ ((0 < length digits.now) × (slice_index digits.now 0 ≡ 48 → length digits.now ≡ 1)) }
{
    match digits {
        [] => false,
        [b'0'] => true,
        [first, ..] => *first != b'0',
    }
}

/// The value of digits, where it has at most 128 bits.
fn value_of(digits: &[u8]) -> Option<u128>
    requires digits { AllAre is_ascii_digit digits.now }
    requires some { 0 < length digits.now }
    ensures { SomeIff result (digits_value 10 digits.now < 2 ^ 128) (digits_value 10 digits.now) }
{
    let Ok(text) = str::from_utf8(digits) else {
        return None;
    };
    match text.parse::<u128>() {
        Ok(value) => Some(value),
        Err(_) => None,
    }
}

/// The natural number of at most 128 bits at the front of the line.
pub fn read_natural(line: &[u8]) -> Option<Natural<'_>>
    ensures { MatchOption result ((n : ℕ) (rest : List ℕ) → BeginsWithNatural line.now n rest → ⊥) (λ got. BeginsWithNatural line.now got.value got.rest.now) }
{
    let len = digits_len(line);
    let (digits, rest) = line.split_at(len);
    if !is_plain(digits) {
        return None;
    }
    match value_of(digits) {
        Some(value) => Some(Natural { value, rest }),
        None => None,
    }
}

/// The number with this magnitude, if there is one of 128 bits.
fn above_zero(magnitude: u128) -> Option<i128>
    ensures { SomeIff result (magnitude < 2 ^ 127) (pos magnitude) }
{
    if magnitude >= MOST_BELOW {
        return None;
    }
    Some(magnitude as i128)
}

/// The number of 128 bits with this magnitude below 0, if there is one.
fn below_zero(magnitude: u128) -> Option<i128>
    ensures { SomeIff result ((0 < magnitude) × (magnitude ≤ 2 ^ 127)) (neg_ℤ (pos magnitude)) }
{
    if magnitude == 0 || magnitude > MOST_BELOW {
        return None;
    }
    Some(-((magnitude - 1) as i128) - 1)
}

/// The number of 128 bits at the front of the line.
pub fn read_integer(line: &[u8]) -> Option<Integer<'_>>
    ensures { MatchOption result ((z : ℤ) (rest : List ℕ) → BeginsWithInteger line.now z rest → ⊥) (λ got. BeginsWithInteger line.now got.value got.rest.now) }
{
    match behind(line, b"-") {
        Some(digits) => {
            let Some(natural) = read_natural(digits) else {
                return None;
            };
            let Some(value) = below_zero(natural.value) else {
                return None;
            };
            let rest = natural.rest;
            Some(Integer { value, rest })
        }
        None => {
            let Some(natural) = read_natural(line) else {
                return None;
            };
            let Some(value) = above_zero(natural.value) else {
                return None;
            };
            let rest = natural.rest;
            Some(Integer { value, rest })
        }
    }
}

/// A text begins with one natural number.
pub fn naturals_are_one()
    ensures { NaturalsAreOne }
{}

/// A text begins with one number.
pub fn integers_are_one()
    ensures { IntegersAreOne }
{}
