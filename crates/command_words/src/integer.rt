//! Integers as a word gives them.

ghost use Rattle.std.specs.Prelude.{◌≡◌, ◌↔◌, ◌≤◌, ℕ, ℤ, IsTrue, IfSome, IfNone, length};
ghost use Rattle.std.specs.Char.{is_ascii_digit};
ghost use Rattle.std.specs.Str.Parse.{digits_value};
ghost use Rattle.az_text.specs.Tokens.{AllAre};
ghost use Rattle.command_words.specs.Bindings.{IsMagnitude, IsInteger};

/// The most digits that an integer may have.
const MOST_DIGITS: usize = 19;

fn are_digits(bytes: &[u8]) -> bool
    ensures { IsTrue result ↔ AllAre is_ascii_digit bytes.now }
{
    bytes.iter().all(u8::is_ascii_digit)
}

fn value_of(digits: &[u8]) -> u64
    requires digits { AllAre is_ascii_digit digits.now }
    requires few { length digits.now ≤ 19 }
    ensures { result ≡ digits_value 10 digits.now }
{
    let mut value = 0;
    for digit in digits {
        value = 10 * value + u64::from(*digit - b'0');
    }
    value
}

fn magnitude(digits: &[u8]) -> Option<u64>
    ensures found { IfSome result (λ n. IsMagnitude digits.now n) }
    ensures none { IfNone result ((n : ℕ) → IsMagnitude digits.now n → ⊥) }
{
    if digits.is_empty() || digits.len() > MOST_DIGITS || !are_digits(digits) {
        return None;
    }
    Some(value_of(digits))
}

/// The number that 1 to 19 digits, behind a dash or not, say.
pub(crate) fn integer(text: &str) -> Option<i128>
    ensures found { IfSome result (λ number. IsInteger text.now number) }
    ensures none { IfNone result ((number : ℤ) → IsInteger text.now number → ⊥) }
{
    match text.as_bytes() {
        [b'-', digits @ ..] => magnitude(digits).map(|n| -i128::from(n)),
        digits => magnitude(digits).map(i128::from),
    }
}
