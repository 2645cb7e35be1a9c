//! Texts and the sums that they are, by the grammar.

use crate::read_sum;
use az_text::lex;
use grammar_rules::{Cursor, ReadError, indices, rows_in_brackets};
use std::alloc::{AllocError, Global};
use std::test::Fail;

/// Texts with the limit of weight, each with its value, the number of the first token that can't go
/// on, or "heavy" behind the arrow.
const CASES: &str = "\
    7/9→7§\
    1+2/9→3§\
    10-4-3/9→3§\
    10-(4-3)/9→9§\
    2+3*4/9→14§\
    2*3+4/9→10§\
    (2+3)*4/9→20§\
    -1+3/9→2§\
    3--1/9→4§\
    3*-2+7/9→1§\
    -(2)*3+7/9→1§\
    ((((5))))/9→5§\
    7/1→7§\
    7/0→heavy§\
    1+2/2→heavy§\
    1+/2→at 2§\
    1+)/2→at 2§\
    1+)/1→heavy§\
    (((1/3→heavy§\
    (((1/4→at 4§\
    ((1)))/9→at 5§\
    1 2/9→at 1§\
    /9→at 0§\
    )/9→at 0§\
    --1/9→at 1§\
    1+*2/9→at 2§\
    (1+2/9→at 4§\
    ()/9→at 1§\
    x/9→at 0§\
    2*x/9→at 2§\
    1*2*3*4*5/9→120§\
    1*2*3*4*5/8→heavy§\
";

/// The value of a text of at most this weight, or what is wrong with it.
fn shown(alloc: Global, text: &str, limit: u32) -> Result<String, AllocError> {
    let Ok(tokens) = lex(alloc, text.as_bytes()) else {
        return String::from_str(alloc, "no tokens");
    };
    let count = tokens.len();
    match read_sum(tokens.as_slice(), limit) {
        Ok(value) => format!(in alloc; "{value}"),
        Err(ReadError::Syntax(remaining)) => {
            let place = count.saturating_sub(remaining);
            format!(in alloc; "at {place}")
        }
        Err(ReadError::Size) => String::from_str(alloc, "heavy"),
        Err(ReadError::Memory) => String::from_str(alloc, "memory"),
    }
}

#[test]
fn reads_sums(rt: HostRuntime) -> Result<(), Fail> {
    let mut count = 0u32;
    for case in CASES.split('§') {
        let Some((head, want)) = case.split_once('→') else {
            break;
        };
        let Some((text, limit)) = head.split_once('/') else {
            break;
        };
        let Ok(limit) = limit.parse::<u32>() else {
            break;
        };
        let got = shown(rt.alloc(), text, limit)?;
        assert_eq!(rt; got.as_str(), want, "in {head}");
        count = count.wrapping_add(1);
    }
    assert_eq!(rt; count, 32);
    Ok(())
}

#[test]
fn reads_words_and_quoted_texts(rt: HostRuntime) -> Result<(), Fail> {
    let alloc = rt.alloc();
    let tokens = lex(alloc, b"let x \"a b\"").ok().ok_or("tokens")?;
    let start = Cursor::new(tokens.as_slice(), 1).limited(9);
    assert!(rt; start.keyword("case", 1).is_err());
    assert!(rt; start.name(&["case", "let"], 1).is_err());
    let after = start.keyword("let", 1).ok().ok_or("the reserved word")?;
    assert!(rt; after.quoted(1).is_err());
    let (name, after) = after.name(&["case", "let"], 1).ok().ok_or("a name")?;
    assert_eq!(rt; name, "x");
    let (text, after) = after.quoted(1).ok().ok_or("a quoted text")?;
    assert_eq!(rt; text, "a b");
    assert_eq!(rt; after.budget, 6);
    Ok(())
}

#[test]
fn a_word_has_the_value_beside_it(rt: HostRuntime) -> Result<(), Fail> {
    let alloc = rt.alloc();
    let tokens = lex(alloc, b"Show x").ok().ok_or("tokens")?;
    let start = Cursor::new(tokens.as_slice(), 3);
    let table = [("Check", 1u8), ("Show", 2), ("Show", 3)];
    let (value, after) = start.word_of(&table, 2).ok().ok_or("a word of the table")?;
    assert_eq!(rt; (value, after.budget), (2, 1));
    assert!(rt; after.word_of(&table, 0).is_err());
    Ok(())
}

#[test]
fn reads_names_and_sides(rt: HostRuntime) -> Result<(), Fail> {
    let alloc = rt.alloc();
    let reserved = ["let"];
    let tokens = lex(alloc, b"[i,j] [-2*i+N,3] [let]").ok().ok_or("tokens")?;
    let start = Cursor::new(tokens.as_slice(), 0);
    let (names, after) = indices(alloc, &reserved, start).ok().ok_or("names")?;
    assert_eq!(rt; names.len(), 2);
    let (rows, after) = rows_in_brackets(alloc, &reserved, after)
        .ok()
        .ok_or("sides")?;
    let row = rows.as_slice().first().ok_or("a side")?;
    let term = row.as_slice().first().ok_or("a term")?;
    assert_eq!(rt; (rows.len(), row.len()), (2, 2));
    assert_eq!(rt; (term.negative, term.factor), (true, 2));
    let read = indices(alloc, &reserved, after);
    assert!(rt; matches!(read, Err(ReadError::Syntax(2))));
    Ok(())
}
