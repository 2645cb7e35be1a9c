//! The text of each program, and that it is read as a program with the same text.

use crate::cases::{BODIES, DOMAINS, PROGRAMS};
use alphabets_read::read_program;
use alphabets_show::show_program;
use std::alloc::Global;
use std::test::Fail;

/// The text that is shown of the program of a text.
fn shown(alloc: Global, text: &[u8]) -> Result<Vec<u8>, Fail> {
    let program = read_program(alloc, text).ok().ok_or("a program")?;
    let text = show_program(alloc, &program).ok().ok_or("memory")?;
    Ok(text.into_vec())
}

/// A text with what stands before and behind it.
fn between(alloc: Global, before: &str, text: &str, behind: &str) -> Result<String, Fail> {
    let mut whole = String::from_str(alloc, before)?;
    whole.push_str(text)?;
    whole.push_str(behind)?;
    Ok(whole)
}

/// Whether the text is shown of the program, and is read as a program of which the same text is shown.
fn is_shown(alloc: Global, program: &str, text: &str) -> Result<bool, Fail> {
    let first = shown(alloc, program.as_bytes())?;
    let again = shown(alloc, first.as_slice())?;
    Ok(first.as_slice() == text.as_bytes() && again.as_slice() == text.as_bytes())
}

#[test]
fn shows_programs(rt: HostRuntime) -> Result<(), Fail> {
    let alloc = rt.alloc();
    let mut count = 0u32;
    for case in PROGRAMS.split('§') {
        let Some((program, text)) = case.split_once('→') else {
            break;
        };
        let holds = is_shown(alloc, program, text)?;
        assert!(rt; holds, "{text}");
        count = count.wrapping_add(1);
    }
    assert_eq!(rt; count, 7);
    Ok(())
}

#[test]
fn shows_domains(rt: HostRuntime) -> Result<(), Fail> {
    let alloc = rt.alloc();
    let mut count = 0u32;
    for case in DOMAINS.split('§') {
        let Some((rows, text)) = case.split_once('→') else {
            break;
        };
        let program = between(alloc, "affine P {N|} input A {i|", rows, "}; let .")?;
        let want = between(
            alloc,
            "affine P {N |}\ninput\n  A {i0 ",
            text,
            "};\nlet\n.\n",
        )?;
        let holds = is_shown(alloc, program.as_str(), want.as_str())?;
        assert!(rt; holds, "{text}");
        count = count.wrapping_add(1);
    }
    assert_eq!(rt; count, 11);
    Ok(())
}

const BEFORE: &str = "affine P {N|} input A {a|}; B {a,b|}; C {|}; output X {a|}; let X[i] = ";

const SHOWN_BEFORE: &str =
    "affine P {N |}\ninput\n  A {i0 |};\n  B {i0,i1 |};\n  C {|};\noutput\n  X {i0 |};\nlet\n  X[i0] = ";

#[test]
fn shows_expressions(rt: HostRuntime) -> Result<(), Fail> {
    let alloc = rt.alloc();
    let mut count = 0u32;
    for case in BODIES.split('§') {
        let Some((body, text)) = case.split_once('→') else {
            break;
        };
        let program = between(alloc, BEFORE, body, "; .")?;
        let want = between(alloc, SHOWN_BEFORE, text, ";\n.\n")?;
        let holds = is_shown(alloc, program.as_str(), want.as_str())?;
        assert!(rt; holds, "{text}");
        count = count.wrapping_add(1);
    }
    assert_eq!(rt; count, 39);
    Ok(())
}
