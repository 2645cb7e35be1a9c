//! What the words of 64 bits give at their ends, and that tables are found under their numbers.

use crate::fault::Fault;
use az_ast::{Inputs, Op, Table, apply_op, identity_of, wrap};
use az_lin::List;

const MOST: i64 = 9223372036854775807;

const LEAST: i64 = -9223372036854775808;

#[test]
fn operators_wrap(rt: HostRuntime) {
    for (op, a, b, value) in [
        (Op::Add, MOST, 1, LEAST),
        (Op::Sub, LEAST, 1, MOST),
        (Op::Mul, MOST, 2, -2),
        (Op::And, -4, 6, 4),
        (Op::Or, -4, 3, -1),
        (Op::Xor, -1, 5, -6),
        (Op::Max, LEAST, -3, -3),
        (Op::Min, LEAST, -3, LEAST),
    ] {
        assert_eq!(rt; apply_op(op, a, b), value);
    }
    assert_eq!(rt; identity_of(Op::Max), LEAST);
    assert_eq!(rt; wrap(18446744073709551615), -1);
}

#[test]
fn tables_stand_under_their_numbers(rt: HostRuntime) -> Result<(), Fault> {
    let alloc = rt.alloc();
    let point = Vec::from_slice(alloc, &[0, -2])?;
    let mut rows = Vec::new(alloc);
    rows.push((List::from_vec(point), 5))?;
    let mut inputs = Inputs::new(alloc);
    inputs.set(3, Table::new(List::from_vec(rows)))?;
    assert!(rt; inputs.table(2).is_none());
    let found = inputs.table(3).and_then(|table| table.value(&[0, -2]));
    assert_eq!(rt; found, Some(5));
    let missing = inputs.table(3).and_then(|table| table.value(&[0, 2]));
    assert_eq!(rt; missing, None);
    let copies = inputs.copy(alloc)?;
    let found = copies.table(3).and_then(|table| table.value(&[0, -2]));
    assert_eq!(rt; found, Some(5));
    Ok(())
}
