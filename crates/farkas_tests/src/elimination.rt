//! Systems over three columns with what the calls leave of them. A row is its coefficients, and its constant last.

ghost use Rattle.std.specs.Prelude.{◌≡◌, ◌<◌, ◌≤◌, length, All, IfOk};
ghost use Rattle.az_lin.specs.Affine.{IsWide, HasWidth};
ghost use Rattle.farkas_find.specs.Rows.{HasWideRow, HaveOneWidth};

use crate::{Fault, Table};
use az_lin::{Conj, Limit, List, Row};
use farkas_find::{FindFault, Left, WideRow, drop_column, range_rows, tidy};
use std::alloc::Global;

/// What a call should answer.
#[derive(Clone, Copy)]
enum Wanted<'a> {
    Contradiction,
    Rows(Table<'a>),
    Overflow(u32),
    TooMany,
}

fn is_row(row: &WideRow, wanted: &[i128; 4]) -> bool {
    row.coefs.as_slice() == &wanted[..3] && row.konst == wanted[3]
}

fn are_rows(rows: &[WideRow], wanted: Table<'_>) -> bool {
    rows.len() == wanted.len()
        && rows
            .iter()
            .zip(wanted)
            .all(|(row, wanted)| is_row(row, wanted))
}

fn is_answer(answer: &Result<Left, FindFault>, wanted: &Wanted<'_>) -> bool {
    match (answer, wanted) {
        (Ok(Left::Contradiction), Wanted::Contradiction) => true,
        (Ok(Left::Rows(rows)), Wanted::Rows(wanted)) => are_rows(rows.as_slice(), wanted),
        (Err(FindFault::Overflow(stage)), Wanted::Overflow(wanted)) => stage == wanted,
        (Err(FindFault::Limit(Limit::Rows)), Wanted::TooMany) => true,
        _ => false,
    }
}

const GREAT: i128 = 1 << 126;

const GREATEST: i128 = i128::MAX;

fn wide(number: i128) -> i128
    ensures { IsWide result }
{
    if number == i128::MIN { 0 } else { number }
}

fn wide_row(alloc: Global, numbers: &[i128; 4]) -> Result<WideRow, Fault>
    ensures range { IfOk result (λ row. HasWideRow row) }
    ensures width { IfOk result (λ row. length row.coefs ≡ 3) }
{
    let mut coefs = List::new(alloc);
    coefs.push(wide(numbers[0]))?;
    coefs.push(wide(numbers[1]))?;
    coefs.push(wide(numbers[2]))?;
    Ok(WideRow {
        coefs,
        konst: wide(numbers[3]),
    })
}

fn wide_rows(alloc: Global, table: Table<'_>) -> Result<List<WideRow>, Fault>
    ensures range { IfOk result (λ rows. All HasWideRow rows) }
    ensures width { IfOk result (λ rows. All (λ row. length row.coefs ≡ 3) rows) }
{
    let mut rows = Vec::with_capacity(alloc, table.len())?;
    'rows: for numbers in table {
        rows.push(wide_row(alloc, numbers)?)?;
    }
    Ok(List::from_vec(rows))
}

/// Whether tidying leaves of the table what it should.
fn tidies(alloc: Global, table: Table<'_>, wanted: Wanted<'_>) -> Result<bool, Fault> {
    let rows = wide_rows(alloc, table)?;
    Ok(is_answer(&tidy(alloc, rows), &wanted))
}

/// Whether dropping a column of the table leaves what it should.
fn drops(alloc: Global, table: Table<'_>, column: u32, wanted: Wanted<'_>) -> Result<bool, Fault>
    requires { column < 3 }
{
    let rows = wide_rows(alloc, table)?;
    Ok(is_answer(&drop_column(alloc, rows, column), &wanted))
}

fn stored_row(alloc: Global, numbers: &[i128; 4]) -> Result<Row, Fault>
    ensures { IfOk result (λ row. HasWidth 3 row) }
{
    Ok(Row::new(alloc, &[numbers[0], numbers[1], numbers[2]], numbers[3])?)
}

pub(crate) fn stored(alloc: Global, table: Table<'_>) -> Result<Conj, Fault>
    ensures { IfOk result (λ conj. conj.width ≡ 3) }
{
    let mut rows = Vec::with_capacity(alloc, table.len())?;
    'rows: for numbers in table {
        rows.push(stored_row(alloc, numbers)?)?;
    }
    Ok(Conj::new(3, List::from_vec(rows)))
}

/// Whether the stages leave of a column what they should.
fn leaves(alloc: Global, table: Table<'_>, column: u32, wanted: Wanted<'_>) -> Result<bool, Fault>
    requires { column < 3 }
{
    let system = stored(alloc, table)?;
    Ok(is_answer(&range_rows(alloc, &system, column), &wanted))
}

#[test]
fn rounds_and_finds_contradictions(rt: HostRuntime) -> Result<(), Fault> {
    let alloc = rt.alloc();
    let one = [[2, 0, 0, -4], [1, 0, 0, -1]];
    assert!(rt; tidies(alloc, &one, Wanted::Rows(&[[1, 0, 0, -2]]))?);
    let down = [[-2, 4, 0, -7], [0, 3, 6, 8]];
    assert!(rt; tidies(alloc, &down, Wanted::Rows(&[[-1, 2, 0, -4], [0, 1, 2, 2]]))?);
    let edge = [[GREAT, GREAT, 0, 1], [GREATEST, 0, 0, -GREATEST]];
    assert!(rt; tidies(alloc, &edge, Wanted::Rows(&[[1, 1, 0, 0], [1, 0, 0, -1]]))?);
    let negative = [[1, 0, 0, 0], [0, 0, 0, -1]];
    assert!(rt; tidies(alloc, &negative, Wanted::Contradiction)?);
    assert!(rt; tidies(alloc, &[], Wanted::Rows(&[]))?);
    Ok(())
}

#[test]
fn leaves_out_weaker_rows(rt: HostRuntime) -> Result<(), Fault> {
    let alloc = rt.alloc();
    let equal = [[2, 0, 0, -1], [0, 1, 0, 0], [3, 0, 0, -2]];
    assert!(rt; tidies(alloc, &equal, Wanted::Rows(&[[1, 0, 0, -1], [0, 1, 0, 0]]))?);
    let later = [[1, 0, 0, 3], [0, 1, 0, 0], [1, 0, 0, -2]];
    assert!(rt; tidies(alloc, &later, Wanted::Rows(&[[0, 1, 0, 0], [1, 0, 0, -2]]))?);
    let nothing = [[0, 0, 0, 5], [1, 1, 0, 0], [0, 0, 0, 0]];
    assert!(rt; tidies(alloc, &nothing, Wanted::Rows(&[[1, 1, 0, 0]]))?);
    let both = [[1, 0, 0, 0], [-1, 0, 0, 0]];
    assert!(rt; tidies(alloc, &both, Wanted::Rows(&both))?);
    Ok(())
}

/// Whether tidying leaves so of rows with three lists of coefficients, whose constants fall or stay.
fn tidies_many(
    alloc: Global,
    count: u32,
    falling: bool,
    wanted: Wanted<'_>,
) -> Result<bool, Fault> {
    let mut rows = Vec::new(alloc);
    'rows: for number in 0..count {
        let konst = if falling { -i128::from(number) } else { 0 };
        rows.push([i128::from(number % 3), 1, 0, konst])?;
    }
    tidies(alloc, rows.as_slice(), wanted)
}

#[test]
fn leaves_out_weaker_rows_of_many(rt: HostRuntime) -> Result<(), Fault> {
    let alloc = rt.alloc();
    let last = [[0, 1, 0, -27], [1, 1, 0, -28], [2, 1, 0, -29]];
    assert!(rt; tidies_many(alloc, 30, true, Wanted::Rows(&last))?);
    let first = [[0, 1, 0, 0], [1, 1, 0, 0], [2, 1, 0, 0]];
    assert!(rt; tidies_many(alloc, 30, false, Wanted::Rows(&first))?);
    assert!(rt; tidies_many(alloc, 20_000, false, Wanted::Rows(&first))?);
    assert!(rt; tidies_many(alloc, 20_001, false, Wanted::TooMany)?);
    Ok(())
}

#[test]
fn drops_columns(rt: HostRuntime) -> Result<(), Fault> {
    let alloc = rt.alloc();
    let chain = [[1, -1, 0, 0], [0, 1, 0, -3], [-1, 0, 0, 5]];
    assert!(rt;
        drops(
            alloc,
            &chain,
            1,
            Wanted::Rows(&[[-1, 0, 0, 5], [1, 0, 0, -3]])
        )?
    );
    let pair = [[1, 1, 0, -2], [-1, -1, 0, 2], [1, -1, 0, 0], [0, 1, 0, -3]];
    assert!(rt;
        drops(
            alloc,
            &pair,
            1,
            Wanted::Rows(&[[1, 0, 0, -1], [-1, 0, 0, -1]])
        )?
    );
    let factors = [[1, 2, 0, 0], [3, -3, 1, 1]];
    assert!(rt; drops(alloc, &factors, 1, Wanted::Rows(&[[9, 0, 2, 2]]))?);
    let vanishing = [[1, 1, 0, -1], [-1, -1, 0, 3]];
    assert!(rt; drops(alloc, &vanishing, 1, Wanted::Rows(&[[0, 0, 0, 2]]))?);
    let open = [[1, 1, 0, 0], [1, 2, 0, 0]];
    assert!(rt; drops(alloc, &open, 1, Wanted::Rows(&[]))?);
    let refuted = [[0, 1, 0, 0], [0, 0, 0, -1]];
    assert!(rt; drops(alloc, &refuted, 1, Wanted::Contradiction)?);
    Ok(())
}

#[test]
fn stops_at_the_edge_of_the_range(rt: HostRuntime) -> Result<(), Fault> {
    let alloc = rt.alloc();
    let within = [[GREAT, 1, 0, 0], [GREAT - 1, -1, 0, -1]];
    assert!(rt; drops(alloc, &within, 1, Wanted::Rows(&[[1, 0, 0, -1]]))?);
    let past = [[GREAT, 1, 0, 0], [GREAT, -1, 0, 0]];
    assert!(rt; drops(alloc, &past, 1, Wanted::Overflow(0))?);
    let constant = [[1, 1, 0, GREATEST], [0, -1, 1, 1]];
    assert!(rt; drops(alloc, &constant, 1, Wanted::Overflow(0))?);
    Ok(())
}

#[test]
fn goes_down_to_one_column(rt: HostRuntime) -> Result<(), Fault> {
    let alloc = rt.alloc();
    let chain = [[1, -1, 0, 0], [0, 1, 0, -3], [-1, 0, 0, 5]];
    assert!(rt;
        leaves(
            alloc,
            &chain,
            0,
            Wanted::Rows(&[[-1, 0, 0, 5], [1, 0, 0, -3]])
        )?
    );
    assert!(rt;
        leaves(
            alloc,
            &chain,
            1,
            Wanted::Rows(&[[0, 1, 0, -3], [0, -1, 0, 5]])
        )?
    );
    let apart = [[1, -1, 0, 0], [-1, 1, 0, -1]];
    assert!(rt; leaves(alloc, &apart, 2, Wanted::Contradiction)?);
    // Both columns stand for one pair of rows, and the lower one goes first.
    let tie = [[1, 0, 1, 0], [-1, 0, 0, 1], [0, 1, -1, 2], [0, -1, 0, 3]];
    assert!(rt; leaves(alloc, &tie, 2, Wanted::Rows(&[[0, 0, 1, 1], [0, 0, -1, 5]]))?);
    // The pair of exact negatives goes before the column with fewer pairs.
    let pair = [[1, 0, 1, 0], [0, 2, 1, 0], [0, -2, -1, 0], [0, 1, 0, -1]];
    assert!(rt; leaves(alloc, &pair, 2, Wanted::Rows(&[[0, 0, -1, -2]]))?);
    Ok(())
}

/// Whether dropping a column answers so, where so many rows are positive in it and so many negative.
fn drops_many(alloc: Global, pluses: u32, minuses: u32, wanted: Wanted<'_>) -> Result<bool, Fault> {
    let mut rows = Vec::new(alloc);
    'pluses: for number in 0..pluses {
        rows.push([i128::from(number), 1, 0, 0])?;
    }
    'minuses: for number in 0..minuses {
        rows.push([i128::from(number), -1, 1, 0])?;
    }
    drops(alloc, rows.as_slice(), 1, wanted)
}

#[test]
fn counts_rows_before_they_are_made(rt: HostRuntime) -> Result<(), Fault> {
    let alloc = rt.alloc();
    assert!(rt; drops_many(alloc, 20_001, 0, Wanted::TooMany)?);
    assert!(rt; drops_many(alloc, 200, 101, Wanted::TooMany)?);
    Ok(())
}
