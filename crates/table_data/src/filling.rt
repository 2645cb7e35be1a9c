//! The values that the records of a text give at points.

ghost use Rattle.std.specs.Prelude.{◌≡◌, length};
ghost use Rattle.csv.specs.Records.{fields_of};
ghost use Rattle.az_ast.specs.Points.{IsIncreasing};
ghost use Rattle.table_data.specs.Records.{records_of};
ghost use Rattle.table_data.specs.Inner.Filling.{Puts};
ghost use Rattle.table_data.specs.Inner.Answers.{Places, Fills};

use crate::place::place_of;
use crate::records::{next_record, reader_of};
use crate::row::read_row;
use crate::{RowKind, TableFault};
use az_lin::List;
use csv::ByteRecord;
use std::alloc::Global;

/// Puts the value at the point's place, and answers the place.
fn put(
    points: &[List<i128>],
    values: &mut [Option<i64>],
    point: &[i128],
    value: i64,
    guess: usize,
) -> Result<usize, RowKind>
    requires increasing { IsIncreasing points.now }
    requires lengths { length values.old ≡ length points.now }
    ensures { Puts points.now values.old (point.now, value) values.new result }
{
    let Some(place) = place_of(points, point, guess) else {
        return Err(RowKind::Outside);
    };
    match values[place] {
        Some(_) => Err(RowKind::Twice),
        None => {
            values[place] = Some(value);
            Ok(place)
        }
    }
}

/// Puts the value of the row that the record says, and answers its place.
fn put_row(
    points: &[List<i128>],
    values: &mut [Option<i64>],
    point: &mut [i128],
    fields: &ByteRecord,
    guess: usize,
) -> Result<usize, RowKind>
    requires increasing { IsIncreasing points.now }
    requires lengths { length values.old ≡ length points.now }
    ensures { Places (length point.old) points.now values.old (fields_of fields.now) values.new result }
{
    let value = read_row(fields, point)?;
    put(points, values, point, value, guess)
}

/// The values that the text gives at the points of so many indices. The place behind the last
/// row's is tried first, so that a text in the order of the points is read without a search.
#[tactic(auto, using(crate::proofs::PlacesFilled::nothing_read, crate::proofs::PlacesFilled::places_more, crate::proofs::PlacesFilled::places_wrong, crate::proofs::PlacesFilled::all_filled, crate::proofs::PlacesFilled::read_few))]
pub(crate) fn filled(
    alloc: Global,
    points: &[List<i128>],
    width: usize,
    text: &[u8],
) -> Result<List<Option<i64>>, TableFault>
    requires { IsIncreasing points.now }
    ensures { Fills width points.now (records_of text.now) result }
{
    let mut values = vec![in alloc; None; points.len()]?;
    let mut point = vec![in alloc; 0; width]?;
    let mut reader = reader_of(alloc, text);
    let mut fields = ByteRecord::new(alloc);
    // There are fewer records than bytes.
    let _ = text.len();
    let mut row: u64 = 0;
    let mut guess = 0;
    'records: while next_record(&mut reader, &mut fields)? {
        row += 1;
        match put_row(
            points,
            values.as_mut_slice(),
            point.as_mut_slice(),
            &fields,
            guess,
        ) {
            Ok(place) => guess = place + 1,
            Err(kind) => return Err(TableFault::BadRow { row, kind }),
        }
    }
    Ok(List::from_vec(values))
}
