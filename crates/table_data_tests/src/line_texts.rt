//! Texts over an interval with the members 0, 1 and 2, and what they say. All was found by hand.

/// A text, and its rows in order or its fault.
pub(crate) type Case = (&'static [u8], &'static str);

pub(crate) const PROGRAM: &str = "affine T {N|N>=0} output A {i|0<=i<N}; let A[i] = 0; .";

/// Texts that are tables.
pub(crate) const TABLES: [Case; 13] = [
    (b"0,1\n1,2\n2,3\n", "0,1 1,2 2,3 "),
    (b"0,1\n1,2\n2,3", "0,1 1,2 2,3 "),
    (b"0,1\r\n1,2\r\n2,3\r\n", "0,1 1,2 2,3 "),
    // A carriage return alone ends a record.
    (b"0,1\r1,2\r2,3\r", "0,1 1,2 2,3 "),
    (b"\n0,1\n\n\r\n1,2\n2,3\n\n", "0,1 1,2 2,3 "),
    (b"\xEF\xBB\xBF0,1\n1,2\n2,3\n", "0,1 1,2 2,3 "),
    (b"2,3\n0,1\n1,2\n", "0,1 1,2 2,3 "),
    (b"1,2\n2,3\n0,1\n", "0,1 1,2 2,3 "),
    (b"\"0\",\"1\"\n1,\"2\"\n2,3\n", "0,1 1,2 2,3 "),
    (b"0,-0\n1,-1\n2,00000000000000000001\n", "0,0 1,-1 2,1 "),
    (
        b"0,9223372036854775807\n1,-9223372036854775808\n2,-00000000000000000007\n",
        "0,9223372036854775807 1,-9223372036854775808 2,-7 ",
    ),
    (b"-0,5\n01,6\n00000000000000000002,7\n", "0,5 1,6 2,7 "),
    // The quotes aren't closed, and the last field is read to its end.
    (b"0,1\n1,2\n2,\"3", "0,1 1,2 2,3 "),
];

/// Texts with a record that is wrong.
pub(crate) const WRONG: [Case; 36] = [
    (b"0,1\n0,2\n", "2 Twice"),
    (b"0,1\n0,1\n", "2 Twice"),
    (b"0,1\n-0,1\n", "2 Twice"),
    (b"0,1,5\n", "1 Fields"),
    (b"0\n", "1 Fields"),
    (b"0,x\n", "1 Number"),
    (b"3,1\n", "1 Outside"),
    (b"-1,1\n", "1 Outside"),
    (b"0,+1\n", "1 Number"),
    (b"+0,1\n", "1 Number"),
    (b"0, 1\n", "1 Number"),
    (b"0,1 \n", "1 Number"),
    (b"0,\n", "1 Number"),
    (b",1\n", "1 Number"),
    (b"0,-\n", "1 Number"),
    (b"0,--1\n", "1 Number"),
    (b"0,-+1\n", "1 Number"),
    (b"0,1.0\n", "1 Number"),
    (b"0,0x1\n", "1 Number"),
    (b"0,000000000000000000001\n", "1 Number"),
    (b"0,9223372036854775808\n", "1 Number"),
    (b"0,-9223372036854775809\n", "1 Number"),
    (b"9223372036854775808,1\n", "1 Number"),
    (b"9223372036854775807,1\n", "1 Outside"),
    (b"1099511627776,1\n", "1 Outside"),
    (b"0,\xFF\n", "1 Number"),
    (b"0,1\x00\n", "1 Number"),
    // The quotes aren't closed: the field has the rest of the text.
    (b"0,\"1\n1,2\n2,3\n", "1 Number"),
    // Only the first mark goes.
    (b"\xEF\xBB\xBF\xEF\xBB\xBF0,1\n", "1 Number"),
    (b" \n", "1 Fields"),
    (b"\"\"\n", "1 Fields"),
    (b"0;1\n", "1 Fields"),
    // A blank line is no record.
    (b"0,1\n\n\n0,2\n", "2 Twice"),
    // The length goes before the numbers, these before the domain, and that before the earlier rows.
    (b"3,x,x\n", "1 Fields"),
    (b"3,x\n", "1 Number"),
    (b"0,1\n1,2\n2,3\n3,4\n0,5\n", "4 Outside"),
];

/// Texts without a row for each member.
pub(crate) const MISSING: [Case; 6] = [
    (b"", "0 Missing 0"),
    (b"\n\r\n", "0 Missing 0"),
    (b"0,1\n", "0 Missing 1"),
    (b"2,3\n1,2\n", "0 Missing 0"),
    (b"2,3\n0,1\n", "0 Missing 1"),
    (b"1,2\n0,1\n", "0 Missing 2"),
];
