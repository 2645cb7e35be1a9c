//! Each text of the tables is read.

use crate::answers::answer;
use crate::line_texts::{Case, MISSING, PROGRAM, TABLES, WRONG};
use crate::other_texts::OTHERS;
use alphabets_read::read_program;
use az_ast::Program;
use std::alloc::{AllocError, Global};
use std::test::Fail;

fn first_wrong<'a>(
    alloc: Global,
    program: &Program,
    cases: &'a [Case],
) -> Result<Option<&'a str>, AllocError> {
    for (text, wanted) in cases {
        let said = answer(alloc, program, &[3], text)?;
        if said.as_str() != *wanted {
            return Ok(Some(*wanted));
        }
    }
    Ok(None)
}

#[test]
fn texts_over_a_line(rt: HostRuntime) -> Result<(), Fail> {
    let alloc = rt.alloc();
    let program = read_program(alloc, PROGRAM.as_bytes())?;
    assert_eq!(rt; first_wrong(alloc, &program, &TABLES)?, None);
    assert_eq!(rt; first_wrong(alloc, &program, &WRONG)?, None);
    assert_eq!(rt; first_wrong(alloc, &program, &MISSING)?, None);
    Ok(())
}

#[test]
fn texts_over_other_domains(rt: HostRuntime) -> Result<(), Fail> {
    let alloc = rt.alloc();
    for other in &OTHERS {
        let program = read_program(alloc, other.program.as_bytes())?;
        let said = answer(alloc, &program, other.params, other.text)?;
        assert_eq!(rt; said.as_str(), other.answer);
    }
    Ok(())
}
