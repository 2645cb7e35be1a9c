//! The row that a record says.

ghost use Rattle.std.specs.Prelude.{◌≡◌, ◌<◌, [], ℤ, length, slice_index_or, MatchResult};
ghost use Rattle.csv.specs.Records.{fields_of};
ghost use Rattle.table_data.specs.Numbers.{IsNumber};
ghost use Rattle.table_data.specs.Inner.Rows.{ReadsRow};
ghost use Rattle.table_data.specs.declared.fault.RowKind.TheVariants.{Number};

use crate::RowKind;
use crate::number::number;
use csv::ByteRecord;

fn number_at(fields: &ByteRecord, place: usize) -> Result<i64, RowKind>
    requires { place < length (fields_of fields.now) }
    ensures { MatchResult result (IsNumber (slice_index_or (fields_of fields.now) place [])) (λ kind. (kind ≡ Number) × ((z : ℤ) → IsNumber (slice_index_or (fields_of fields.now) place []) z → ⊥)) }
{
    let Some(field) = fields.get(place) else {
        unreachable!();
    };
    match number(field) {
        Some(value) => Ok(value),
        None => Err(RowKind::Number),
    }
}

/// The value that a record says; its indices go into `point`.
#[tactic(auto, using(crate::proofs::RecordRows::say_more))]
pub(crate) fn read_row(fields: &ByteRecord, point: &mut [i128]) -> Result<i64, RowKind>
    ensures { ReadsRow (length point.old) (fields_of fields.now) point.new result }
{
    if fields.len() != point.len() + 1 {
        return Err(RowKind::Fields);
    }
    'indices: for index in 0..point.len() {
        point[index] = i128::from(number_at(fields, index)?);
    }
    number_at(fields, point.len())
}
