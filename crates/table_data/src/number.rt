//! The number that a field says.

ghost use Rattle.std.specs.Prelude.{◌≡◌, ◌↔◌, ℤ, IsTrue, slice_index, length, ◌≤◌, MatchOption};
ghost use Rattle.table_data.specs.Inner.Forms.{HasForm};
ghost use Rattle.table_data.specs.Numbers.{IsNumber};

const MOST_DIGITS: usize = 20;

/// Whether there are few enough digits behind the sign, and the sign is no plus.
fn has_form(field: &[u8]) -> bool
    ensures { IsTrue result ↔ HasForm field.now }
{
    match field.first() {
        Some(b'-') => field.len() <= MOST_DIGITS + 1,
        Some(b'+') => false,
        _ => field.len() <= MOST_DIGITS,
    }
}

pub(crate) fn number(field: &[u8]) -> Option<i64>
    ensures { MatchOption result ((z : ℤ) → IsNumber field.now z → ⊥) (IsNumber field.now) }
{
    if !has_form(field) {
        return None;
    }
    let Ok(text) = str::from_utf8(field) else {
        return None;
    };
    text.parse::<i64>().ok()
}
