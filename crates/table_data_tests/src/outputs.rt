//! The rows of the outputs of a program, whose tables are read from texts.

use crate::answers::table;
use alphabets_read::read_program;
use az_ast::{Program, Values};
use std::alloc::Global;
use std::test::Fail;
use table_data::write_outputs;

/// An input, two outputs and a local.
const PROGRAM: &str =
    "affine P {|} input A {i|0<=i<=1}; output Y {i,j|0<=i<=1 && j=-5*i}; Z {|}; local X {i|i=0}; let Y[i,j] = A[i]; Z[] = X[0]; X[i] = 7; .";

/// The texts of all variables in order.
const TEXTS: [&[u8]; 4] = [
    b"0,1\n1,2\n",
    b"1,-5,-9223372036854775808\n0,0,9223372036854775807\n",
    b"-7\n",
    b"0,3\n",
];

const ROWS: &[u8] = b"Y,0,0,9223372036854775807\nY,1,-5,-9223372036854775808\nZ,-7\n";

fn values(alloc: Global, program: &Program) -> Result<Values, Fail> {
    let mut values = Values::new(alloc);
    for (x, text) in TEXTS.iter().enumerate() {
        values.set(x as u32, table(alloc, program, x, &[], text)?)?;
    }
    Ok(values)
}

#[test]
fn rows_of_two_outputs(rt: HostRuntime) -> Result<(), Fail> {
    let alloc = rt.alloc();
    let program = read_program(alloc, PROGRAM.as_bytes())?;
    let values = values(alloc, &program)?;
    let rows = write_outputs(alloc, &program, &values)?;
    assert!(rt; rows.as_slice() == ROWS);
    Ok(())
}

#[test]
fn no_rows_without_tables(rt: HostRuntime) -> Result<(), Fail> {
    let alloc = rt.alloc();
    let program = read_program(alloc, PROGRAM.as_bytes())?;
    let rows = write_outputs(alloc, &program, &Values::new(alloc))?;
    assert!(rt; rows.is_empty());
    Ok(())
}
