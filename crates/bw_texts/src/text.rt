//! Reading of CSV records.

ghost use Rattle.std.specs.Prelude.{◌≡◌, [], IfErr, IfOk, false, true};
ghost use Rattle.std.specs.Option.{ForSome};
ghost use Rattle.csv.specs.Records.{fields_of};
ghost use Rattle.bw_texts.specs.Reading.{HasRead, HasReadAll, IsExcused, IsOpen, ReadsMore};

use crate::fault::TextFault;
use csv::{ByteRecord, Error, ErrorKind, Reader, ReaderBuilder};
use std::alloc::Global;
use std::io::Read;

/// Returns a reader of records of any length, without a header row.
pub(crate) fn open<R: Read>(alloc: Global, input: R) -> Reader<R>
    ensures open { IsOpen result }
    ensures start { ForSome (R.remaining input) (λ bytes. HasRead R.remaining result bytes []) }
{
    ReaderBuilder::new()
        .has_headers(false)
        .flexible(true)
        .from_reader(alloc, input)
}

/// Reads the next record, and returns whether there was one.
pub(crate) fn next_record<R: Read>(
    reader: &mut Reader<R>,
    row: &mut ByteRecord,
) -> Result<bool, TextFault>
    requires { IsOpen reader.old }
    ensures open { IfOk result (λ found. found ≡ true → IsOpen reader.new) }
    ensures more { IfOk result (λ found. found ≡ true →
        ReadsMore R.remaining reader.old reader.new (fields_of row.new)) }
    ensures end { IfOk result (λ found. found ≡ false → HasReadAll R.remaining reader.old) }
    ensures excused { IfErr result (λ fault. IsExcused fault) }
{
    match reader.read_byte_record(row) {
        Ok(found) => Ok(found),
        Err(error) => Err(fault_of(error)),
    }
}

fn fault_of(error: Error) -> TextFault
    ensures { IsExcused result }
{
    match error.into_kind() {
        ErrorKind::OutOfMemory => TextFault::Memory,
        _ => TextFault::Read,
    }
}
