//! The records of a text, one after the other.

ghost use Rattle.std.specs.Prelude.{◌≡◌, ◌∷◌, [], IfOk, IfErr, MatchBool};
ghost use Rattle.csv.specs.Records.{fields_of};
ghost use Rattle.table_data.specs.Records.{records_of};
ghost use Rattle.table_data.specs.Inner.Reading.{IsReading, left};
ghost use Rattle.table_data.specs.declared.fault.TableFault.TheVariants.{Memory};

use crate::TableFault;
use csv::{ByteRecord, ErrorKind, Reader, ReaderBuilder};
use std::alloc::Global;

/// A reader that has all records of the text to come.
pub(crate) fn reader_of(alloc: Global, text: &[u8]) -> Reader<&[u8]>
    ensures reading { IsReading result }
    ensures left { left result ≡ records_of text.now }
{
    ReaderBuilder::new()
        .has_headers(false)
        .flexible(true)
        .from_reader(alloc, text)
}

/// Puts the next record into `fields`; answers false where there is none.
pub(crate) fn next_record(
    reader: &mut Reader<&[u8]>,
    fields: &mut ByteRecord,
) -> Result<bool, TableFault>
    requires { IsReading reader.old }
    ensures next { IfOk result (λ found. MatchBool found (IsReading reader.new × (left reader.old ≡ fields_of fields.new ∷ left reader.new)) (left reader.old ≡ [])) }
    ensures cause { IfErr result (λ fault. fault ≡ Memory) }
{
    match reader.read_byte_record(fields) {
        Ok(found) => Ok(found),
        // A reader over a slice doesn't fail; its contract doesn't say so.
        Err(error) => match error.kind() {
            ErrorKind::Io(_) => Err(TableFault::Memory),
            ErrorKind::OutOfMemory => Err(TableFault::Memory),
            _ => unreachable!(),
        },
    }
}
