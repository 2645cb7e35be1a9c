//! Numbers from 1 on, as words count workers with them.

ghost use Rattle.std.specs.Fmt.{decimal};
ghost use Rattle.std.specs.Prelude.{◌≡◌, ◌≤◌, ◌<◌, ◌^◌, ℕ, IfSome, IfNone, option_map};
ghost use Rattle.command_words.specs.Requests.{IsCount, IsWorkers};

use grammar_rules::{Natural, read_natural};

/// The most workers.
const MOST_WORKERS: u32 = 64;

/// The number that the text is in decimal, without a leading zero.
fn natural(text: &str) -> Option<u128>
    ensures found { IfSome result (λ n. text.now ≡ decimal n) }
    ensures none { IfNone result ((n : ℕ) → n < 2 ^ 128 → text.now ≡ decimal n → ⊥) }
{
    let Natural { value, rest } = read_natural(text.as_bytes())?;
    if rest.is_empty() { Some(value) } else { None }
}

/// The number that the text says, where it is no greater than `most`.
pub(crate) fn count(text: &str, most: u32) -> Option<u32>
    ensures found { IfSome result (λ count. IsCount most text.now count) }
    ensures none { IfNone result ((count : ℕ) → IsCount most text.now count → ⊥) }
{
    let value = natural(text)?;
    if value == 0 || u128::from(most) < value {
        return None;
    }
    Some(value as u32)
}

/// How many workers there are to be.
pub(crate) fn workers(counted: Option<&str>) -> Option<u32>
    ensures found { IfSome result (λ count. IsWorkers (option_map (λ text. text.now) counted.entry) count) }
    ensures none { IfNone result ((count : ℕ) → IsWorkers (option_map (λ text. text.now) counted.entry) count → ⊥) }
{
    match counted {
        Some(text) => count(text, MOST_WORKERS),
        None => Some(1),
    }
}
