//! How fast programs are shown: makes a program of 256 equations of 512 nodes each, and shows it as
//! often as the first argument says. It prints how many bytes were shown.
#![tactic(auto)]

use alphabets_read::read_program;
use alphabets_show::{ShowFault, show_program};
use az_ast::Program;
use std::alloc::{AllocError, Global};
use std::env;
use std::process::ExitCode;

const VARIABLES: u32 = 256;

fn push_declarations(text: &mut String) -> Result<(), AllocError> {
    for variable in 0..VARIABLES {
        write!(text, "X{variable}")?;
        text.push_str(" {i|0<=i<=N}; ")?;
    }
    Ok(())
}

/// The negated sum of 0 and an access to each variable but the last, which has 512 nodes.
fn push_equation(text: &mut String, variable: u32) -> Result<(), AllocError> {
    write!(text, "X{variable}")?;
    text.push_str("[i] = -(0")?;
    for read in 0..VARIABLES - 1 {
        write!(text, " + X{read}")?;
        text.push_str("[2*i-N+3]")?;
    }
    text.push_str("); ")
}

/// The program's text.
fn written(alloc: Global) -> Result<String, AllocError> {
    let mut text = String::new(alloc);
    text.push_str("affine Wide {N|N>=1} output ")?;
    push_declarations(&mut text)?;
    text.push_str("let ")?;
    for variable in 0..VARIABLES {
        push_equation(&mut text, variable)?;
    }
    text.push_str(".")?;
    Ok(text)
}

/// How many bytes are shown, so many times together.
fn shown(alloc: Global, program: &Program, times: u32) -> Result<u64, ShowFault> {
    let mut bytes: u64 = 0;
    for time in 0..times {
        let _ = time;
        let text = show_program(alloc, program)?;
        bytes = bytes.saturating_add(text.len() as u64);
    }
    Ok(bytes)
}

/// The first argument, or 1.
fn times(rt: &HostRuntime) -> u32 {
    match env::args(rt) {
        Ok(mut words) => match words.nth(1) {
            Some(word) => word.as_str().parse::<u32>().unwrap_or(1),
            None => 1,
        },
        Err(_) => 1,
    }
}

fn main(rt: HostRuntime) -> ExitCode {
    let alloc = rt.alloc();
    let Ok(text) = written(alloc) else {
        return ExitCode::FAILURE;
    };
    let Ok(program) = read_program(alloc, text.as_bytes()) else {
        return ExitCode::FAILURE;
    };
    let Ok(bytes) = shown(alloc, &program, times(&rt)) else {
        return ExitCode::FAILURE;
    };
    match println!(rt; "bytes {bytes}") {
        Ok(()) => ExitCode::SUCCESS,
        Err(_) => ExitCode::FAILURE,
    }
}
