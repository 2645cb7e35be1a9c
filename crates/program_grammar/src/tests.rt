//! Texts of programs, and what is answered for them.

use crate::{Expr, Operator, read_text};
use az_text::LexFault;
use grammar_rules::TextFault;
use std::alloc::{AllocError, Global};
use std::test::Fail;

/// Texts, each with its answer behind the arrow: that it is read, or the byte of its fault.
const CASES: &str = "\
    affine P {|} let .→ok§\
    →at 0§\
    affine P {|}→at 12§\
    affine let {|}→at 7§\
    affine P {N,M|0<=N&&0<=M} input A {i|0<=i<N||i==M}; output int X {|}; long Y {i,j| || }; local Z {|}; let .→ok§\
    affine P {|} input let .→at 19§\
    affine P {|} local X {|}; input A {|}; let .→at 26§\
    affine P {i|i} let .→at 13§\
    affine P {||} let .→at 10§\
    affine P {|} let X[i] = 1; →at 27§\
    affine P {|} let . .→at 19§\
    affine P {|} let X[] = 1-2*3-i; .→ok§\
    affine P {|} let X[] = --1; .→at 24§\
    affine P {|} let X[] = 2 3; .→at 25§\
    affine P {|} let X[] = [2 i - 3*j + N]; .→ok§\
    affine P {|} let X[] = {|i<0||i>=1} : max(1, -A[i,j]) * (2 + i); .→ok§\
    affine P {|} let X[] = case {|i<=0} : 1; {|i>0} : reduce(+, [k], {|0<=k<=i} : A[k]); esac; .→ok§\
    affine P {|} let X[] = case esac; .→at 28§\
    affine P {|} let X[] = reduce(-, [k], {|} : 1); .→at 30§\
    affine P {|} let X[] = ((1); .→at 27§\
    affine P {|} let X[] = ?; .→byte 23§\
    affine P {| 170141183460469231731687303715884105728→wide 12§\
";

fn answer(alloc: Global, text: &str) -> Result<String, AllocError> {
    match read_text(alloc, text.as_bytes()) {
        Ok(_) => String::from_str(alloc, "ok"),
        Err(TextFault::Lex(LexFault::BadByte(place))) => format!(in alloc; "byte {place}"),
        Err(TextFault::Lex(LexFault::WideNumber(place))) => format!(in alloc; "wide {place}"),
        Err(TextFault::Syntax(place)) => format!(in alloc; "at {place}"),
        Err(TextFault::Size) => String::from_str(alloc, "size"),
        Err(_) => String::from_str(alloc, "memory"),
    }
}

#[test]
fn reads_programs(rt: HostRuntime) -> Result<(), Fail> {
    let mut count = 0u32;
    for case in CASES.split('§') {
        let Some((text, want)) = case.split_once('→') else {
            break;
        };
        let got = answer(rt.alloc(), text)?;
        assert_eq!(rt; got.as_str(), want, "in {text}");
        count = count.wrapping_add(1);
    }
    assert_eq!(rt; count, 22);
    Ok(())
}

/// An equation whose body is made of so many times `before`, then `1`, then as often `behind`.
fn repeated(alloc: Global, times: u32, before: &str, behind: &str) -> Result<String, AllocError> {
    let mut text = String::from_str(alloc, "affine P {|} let X[] = ")?;
    for _ in 0..times {
        text.push_str(before)?;
    }
    text.push_str("1")?;
    for _ in 0..times {
        text.push_str(behind)?;
    }
    text.push_str("; .")?;
    Ok(text)
}

#[test]
fn keeps_the_limits(rt: HostRuntime) -> Result<(), Fail> {
    let alloc = rt.alloc();
    let deep = repeated(alloc, 1023, "(", ")")?;
    assert_eq!(rt; answer(alloc, deep.as_str())?.as_str(), "ok");
    let deeper = repeated(alloc, 1024, "(", ")")?;
    assert_eq!(rt; answer(alloc, deeper.as_str())?.as_str(), "size");
    let long = repeated(alloc, 255, "", "+i")?;
    assert_eq!(rt; answer(alloc, long.as_str())?.as_str(), "ok");
    let longer = repeated(alloc, 256, "", "+i")?;
    assert_eq!(rt; answer(alloc, longer.as_str())?.as_str(), "size");
    Ok(())
}

#[test]
fn groups_from_the_left(rt: HostRuntime) -> Result<(), Fail> {
    let text = "affine P {|} let X[] = 1-2-3; .";
    let program = read_text(rt.alloc(), text.as_bytes())
        .ok()
        .ok_or("program")?;
    let equation = program.equations.get(0).ok_or("equation")?;
    let Expr::Binary(Operator::Subtract, left, right) = &equation.body else {
        return Err("difference".into());
    };
    assert!(rt; matches!(right.get(), Expr::Constant(false, 3)));
    assert!(rt; matches!(left.get(), Expr::Binary(Operator::Subtract, _, _)));
    Ok(())
}
