//! How fast tables are read and written: makes a text of a million rows, whose index goes on by the
//! first argument from row to row, reads it as a table as often as the second says, and writes the
//! table as often as the third. It prints how many rows and bytes there were.
#![tactic(auto)]

use alphabets_read::read_program;
use az_ast::{Program, Table, Values};
use std::alloc::{AllocError, Global};
use std::env;
use std::process::ExitCode;
use table_data::{TableFault, read_table, write_outputs};

/// A million points.
const PROGRAM: &[u8] = b"affine T {|} output A {i|0<=i<1000000}; let A[i] = 0; .";

const ROWS: u64 = 1_000_000;

#[derive(Debug, Clone, Copy)]
struct Sizes {
    step: u64,
    reads: u32,
    writes: u32,
}

fn number(word: Option<String>) -> u32 {
    match word {
        Some(word) => word.as_str().parse::<u32>().unwrap_or(1),
        None => 1,
    }
}

fn arguments(rt: &HostRuntime) -> Sizes {
    match env::args(rt) {
        Ok(mut words) => Sizes {
            step: u64::from(number(words.nth(1))),
            reads: number(words.next()),
            writes: number(words.next()),
        },
        Err(_) => Sizes {
            step: 1,
            reads: 1,
            writes: 1,
        },
    }
}

fn text_of(alloc: Global, step: u64) -> Result<String, AllocError> {
    let mut text = String::new(alloc);
    let mut index: u64 = 0;
    'rows: for row in 0..ROWS {
        write!(text, "{index},{row}\n")?;
        index = index.wrapping_add(step) % ROWS;
    }
    Ok(text)
}

fn table_of(alloc: Global, program: &Program, text: &[u8]) -> Result<Table, TableFault> {
    let Some(variable) = program.variables().first() else {
        return Err(TableFault::Memory);
    };
    if variable.domain.width() > 64 {
        return Err(TableFault::Memory);
    }
    read_table(alloc, &variable.domain, &[], text)
}

/// How many rows were read, and how many bytes were written.
fn measured(alloc: Global, program: &Program, sizes: Sizes) -> Result<(u64, u64), TableFault> {
    let text = text_of(alloc, sizes.step)?;
    let mut rows: u64 = 0;
    let mut values = Values::new(alloc);
    'reads: for time in 0..sizes.reads {
        let _ = time;
        let table = table_of(alloc, program, text.as_bytes())?;
        rows = rows.saturating_add(table.rows().len() as u64);
        if values.set(0, table).is_err() {
            return Err(TableFault::Memory);
        }
    }
    let mut bytes: u64 = 0;
    'writes: for time in 0..sizes.writes {
        let _ = time;
        let written = write_outputs(alloc, program, &values)?;
        bytes = bytes.saturating_add(written.len() as u64);
    }
    Ok((rows, bytes))
}

fn main(rt: HostRuntime) -> ExitCode {
    let alloc = rt.alloc();
    let Ok(program) = read_program(alloc, PROGRAM) else {
        return ExitCode::FAILURE;
    };
    let Ok((rows, bytes)) = measured(alloc, &program, arguments(&rt)) else {
        return ExitCode::FAILURE;
    };
    match println!(rt; "rows {rows} bytes {bytes}") {
        Ok(()) => ExitCode::SUCCESS,
        Err(_) => ExitCode::FAILURE,
    }
}
