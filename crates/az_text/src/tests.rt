//! Texts and their tokens, by the grammar.

use crate::{LexFault, TokenKind, lex};
use std::alloc::{AllocError, Global};
use std::test::Fail;

/// Texts, each with its tokens or its fault behind the arrow.
const CASES: &str = "\
    →§\
    \x20\t\r\n→§\
    //→§\
    // to the end→§\
    // a line\nx→word x 10-11;§\
    a//b\r\nc→word a 0-1;word c 6-7;§\
    a→word a 0-1;§\
    Z9_z reduce→word Z9_z 0-4;word reduce 5-11;§\
    _a→bad 0§\
    12ab→number 12 0-2;word ab 2-4;§\
    ab12→word ab12 0-4;§\
    007→number 7 0-3;§\
    1.5→number 1 0-1;Dot 1-2;number 5 2-3;§\
    -1→Minus 0-1;number 1 1-2;§\
    {}[]()→OpenBrace 0-1;CloseBrace 1-2;OpenBracket 2-3;CloseBracket 3-4;OpenParen 4-5;CloseParen 5-6;§\
    | || ,:;→Bar 0-1;BarBar 2-4;Comma 5-6;Colon 6-7;Semicolon 7-8;§\
    . = == <=→Dot 0-1;Equal 2-3;EqualEqual 4-6;LessEqual 7-9;§\
    < >= > &&→Less 0-1;GreaterEqual 2-4;Greater 5-6;AndAnd 7-9;§\
    + - * ->→Plus 0-1;Minus 2-3;Star 4-5;Arrow 6-8;§\
    {||}→OpenBrace 0-1;BarBar 1-3;CloseBrace 3-4;§\
    |||→BarBar 0-2;Bar 2-3;§\
    ===→EqualEqual 0-2;Equal 2-3;§\
    <==→LessEqual 0-2;Equal 2-3;§\
    >=<→GreaterEqual 0-2;Less 2-3;§\
    -->→Minus 0-1;Arrow 1-3;§\
    ->-→Arrow 0-2;Minus 2-3;§\
    i<=j→word i 0-1;LessEqual 1-3;word j 3-4;§\
    &→bad 0§\
    a&b→bad 1§\
    &&&→bad 2§\
    /→bad 0§\
    a / b→bad 2§\
    \"\"→quoted  0-2;§\
    \"a b\"c→quoted a b 0-5;word c 5-6;§\
    \"//\"→quoted // 0-4;§\
    x\"→bad 1§\
    \"a\nb\"→bad 0§\
    \"a\"\"→bad 3§\
    \"~ \x7f\"→bad 0§\
    aé→bad 1§\
    \x0c→bad 0§\
    a @→bad 2§\
    170141183460469231731687303715884105727→number 170141183460469231731687303715884105727 0-39;§\
    x 170141183460469231731687303715884105728 &→wide 2§\
    & 170141183460469231731687303715884105728→bad 0§\
    999999999999999999999999999999999999999a→wide 0§\
";

/// Each token as its sort, its value and its span, or the fault.
fn shown(alloc: Global, text: &[u8]) -> Result<String, AllocError> {
    let tokens = match lex(alloc, text) {
        Ok(tokens) => tokens,
        Err(LexFault::BadByte(place)) => return format!(in alloc; "bad {place}"),
        Err(LexFault::WideNumber(place)) => return format!(in alloc; "wide {place}"),
        Err(LexFault::Memory) => return String::from_str(alloc, "memory"),
    };
    let mut all = String::new(alloc);
    for token in tokens.as_slice() {
        let from = token.from;
        let to = token.to;
        match &token.kind {
            TokenKind::Word(name) => {
                let name = name.as_str();
                write!(all, "word {name} {from}-{to};")?;
            }
            TokenKind::Number(number) => {
                let number = *number;
                write!(all, "number {number} {from}-{to};")?;
            }
            TokenKind::Quoted(inner) => {
                let inner = inner.as_str();
                write!(all, "quoted {inner} {from}-{to};")?;
            }
            TokenKind::Mark(mark) => {
                let mark = *mark;
                write!(all, "{mark:?} {from}-{to};")?;
            }
        }
    }
    Ok(all)
}

/// 199 bytes of one kind, and then a last one.
fn long(alloc: Global, byte: u8, last: u8) -> Result<Vec<u8>, AllocError> {
    let mut text = Vec::new(alloc);
    for _ in 0..199 {
        text.push(byte)?;
    }
    text.push(last)?;
    Ok(text)
}

#[test]
fn cuts_texts(rt: HostRuntime) -> Result<(), Fail> {
    let mut count = 0u32;
    for case in CASES.split('§') {
        let Some((text, want)) = case.split_once('→') else {
            break;
        };
        let got = shown(rt.alloc(), text.as_bytes())?;
        assert_eq!(rt; got.as_str(), want, "in {text}");
        count = count.wrapping_add(1);
    }
    assert_eq!(rt; count, 46);
    let nines = long(rt.alloc(), b'9', b'9')?;
    let got = shown(rt.alloc(), nines.as_slice())?;
    assert_eq!(rt; got.as_str(), "wide 0", "of 200 nines");
    let one = long(rt.alloc(), b'0', b'1')?;
    let got = shown(rt.alloc(), one.as_slice())?;
    assert_eq!(rt; got.as_str(), "number 1 0-200;");
    Ok(())
}
