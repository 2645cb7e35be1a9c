//! Evaluations of texts: the tables of values, or why there are none.

use crate::answer::answer;
use crate::cases::{CYCLES, LIMITS, OTHERS, PREFIXES, RECURRENCES, REDUCTIONS};
use std::alloc::Global;
use std::test::Fail;

/// The numbers of a text, with a space between them.
fn numbers(alloc: Global, text: &str) -> Result<Vec<i64>, Fail> {
    let mut numbers = Vec::new(alloc);
    for word in text.split(' ') {
        if !word.is_empty() {
            let number: i64 = word.parse().ok().ok_or("a number")?;
            numbers.push(number)?;
        }
    }
    Ok(numbers)
}

/// What a program answers at these parameters, with these numbers of its inputs.
fn said(alloc: Global, text: &str, params: &str, inputs: &str) -> Result<String, Fail> {
    let mut wide = Vec::new(alloc);
    for number in numbers(alloc, params)?.as_slice() {
        wide.push(i128::from(*number))?;
    }
    answer(
        alloc,
        text,
        wide.as_slice(),
        numbers(alloc, inputs)?.as_slice(),
    )
}

/// Evaluates all cases, and gives their number, or what the first is for that is answered in another way.
fn run_all(alloc: Global, cases: &'static str) -> Result<Result<u32, &'static str>, Fail> {
    let mut count = 0u32;
    for case in cases.split('§') {
        let Some((aim, rest)) = case.split_once('→') else {
            break;
        };
        let (text, rest) = rest.split_once('→').ok_or("parameters")?;
        let (params, rest) = rest.split_once('→').ok_or("inputs")?;
        let (inputs, wanted) = rest.split_once('→').ok_or("an answer")?;
        if said(alloc, text, params, inputs)?.as_str() != wanted {
            return Ok(Err(aim));
        }
        count = count.wrapping_add(1);
    }
    Ok(Ok(count))
}

#[test]
fn programs_are_evaluated(rt: HostRuntime) -> Result<(), Fail> {
    let alloc = rt.alloc();
    assert_eq!(rt; run_all(alloc, PREFIXES)?, Ok(5));
    assert_eq!(rt; run_all(alloc, OTHERS)?, Ok(11));
    assert_eq!(rt; run_all(alloc, RECURRENCES)?, Ok(15));
    assert_eq!(rt; run_all(alloc, REDUCTIONS)?, Ok(6));
    Ok(())
}

#[test]
fn cycles_and_limits_are_answered(rt: HostRuntime) -> Result<(), Fail> {
    let alloc = rt.alloc();
    assert_eq!(rt; run_all(alloc, CYCLES)?, Ok(9));
    assert_eq!(rt; run_all(alloc, LIMITS)?, Ok(11));
    Ok(())
}

/// A chain that ends is no cycle, however long it is; a box of 2^22 points isn't beyond the limit.
#[test]
fn long_answers(rt: HostRuntime) -> Result<(), Fail> {
    let alloc = rt.alloc();
    let chain =
        "affine Chain {N | N>=0} output Z {|}; local S {i | 0<=i<=N}; let Z[] = S[0]; S[i] = case {| i=N} : 7; {| i<N} : S[i+1] + 1; esac; .";
    let deep = said(alloc, chain, "100000", "")?;
    assert!(rt; deep.as_str().starts_with("Z =100007;S 0=100007 1=100006 "));
    let wide = "affine Box {|} output X {i,j | 0<=i<=2047 && j=i}; let X[i,j] = [i]; .";
    let boxed = said(alloc, wide, "", "")?;
    assert!(rt; boxed.as_str().starts_with("X 0,0=0 1,1=1 2,2=2 "));
    assert!(rt; boxed.as_str().ends_with(" 2047,2047=2047;"));
    Ok(())
}
