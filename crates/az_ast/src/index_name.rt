//! The names that indices are given where a program is shown.

ghost use Rattle.std.specs.Prelude.{◌≡◌};
ghost use Rattle.std.specs.List.{list_all};
ghost use Rattle.std.specs.Char.{is_ascii_digit};
ghost use Rattle.az_ast.specs.Shapes.{is_index_name};

fn are_digits(bytes: &[u8]) -> bool
    ensures { result ≡ list_all is_ascii_digit bytes.now }
{
    bytes.iter().all(|byte| byte.is_ascii_digit())
}

/// `i` followed by digits alone, of which there is at least one.
pub fn is_index_name(name: &str) -> bool
    ensures { result ≡ is_index_name name.now }
{
    match name.as_bytes() {
        [b'i', digit, digits @ ..] => digit.is_ascii_digit() && are_digits(digits),
        _ => false,
    }
}
