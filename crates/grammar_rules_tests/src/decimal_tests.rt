//! Texts and the numbers that they begin with.

use grammar_rules::{read_integer, read_natural};
use std::alloc::{AllocError, Global};

/// Texts, each with the number at its front and how many bytes stand behind it, or "none".
const INTEGERS: [(&str, &str); 22] = [
    ("0", "0 0"),
    ("7 x", "7 2"),
    ("10", "10 0"),
    ("-1", "-1 0"),
    ("-10,", "-10 1"),
    ("12a34", "12 3"),
    ("4294967296 1", "4294967296 2"),
    ("18446744073709551616", "18446744073709551616 0"),
    (
        "170141183460469231731687303715884105727",
        "170141183460469231731687303715884105727 0",
    ),
    (
        "-170141183460469231731687303715884105727\n",
        "-170141183460469231731687303715884105727 1",
    ),
    (
        "-170141183460469231731687303715884105728",
        "-170141183460469231731687303715884105728 0",
    ),
    ("170141183460469231731687303715884105728", "none"),
    ("-170141183460469231731687303715884105729", "none"),
    ("340282366920938463463374607431768211455", "none"),
    ("00", "none"),
    ("01", "none"),
    ("-0", "none"),
    ("-01", "none"),
    ("--1", "none"),
    ("+1", "none"),
    (" 1", "none"),
    ("", "none"),
];

/// The same of numbers without a sign.
const NATURALS: [(&str, &str); 8] = [
    ("0-", "0 1"),
    ("90", "90 0"),
    (
        "340282366920938463463374607431768211455",
        "340282366920938463463374607431768211455 0",
    ),
    ("340282366920938463463374607431768211456", "none"),
    ("1000000000000000000000000000000000000000", "none"),
    ("09", "none"),
    ("-9", "none"),
    ("x", "none"),
];

fn integer_shown(alloc: Global, text: &str) -> Result<String, AllocError> {
    match read_integer(text.as_bytes()) {
        Some(found) => {
            let value = found.value;
            let behind = found.rest.len();
            format!(in alloc; "{value} {behind}")
        }
        None => String::from_str(alloc, "none"),
    }
}

fn natural_shown(alloc: Global, text: &str) -> Result<String, AllocError> {
    match read_natural(text.as_bytes()) {
        Some(found) => {
            let value = found.value;
            let behind = found.rest.len();
            format!(in alloc; "{value} {behind}")
        }
        None => String::from_str(alloc, "none"),
    }
}

#[test]
fn reads_numbers_of_one_spelling(rt: HostRuntime) -> Result<(), AllocError> {
    let alloc = rt.alloc();
    for (text, wanted) in INTEGERS {
        let shown = integer_shown(alloc, text)?;
        assert_eq!(rt; shown.as_str(), wanted, "{text}");
    }
    for (text, wanted) in NATURALS {
        let shown = natural_shown(alloc, text)?;
        assert_eq!(rt; shown.as_str(), wanted, "{text}");
    }
    Ok(())
}
