//! Writing of CSV records.

ghost use Rattle.std.specs.Prelude.{IfOk, map};
ghost use Rattle.std.specs.Io.KnownBytes.{Keeps};
ghost use Rattle.csv.specs.Writing.{text_written};
ghost use Rattle.bw_texts.specs.Written.{IsBetween, Puts};

use crate::fault::OutFault;
use csv::{Error, ErrorKind, Writer, WriterBuilder};
use std::io::Write;

/// Returns a writer of records of any length.
pub(crate) fn start<W: Write + Drop>(output: W) -> Writer<W>
    ensures between { IsBetween result }
    ensures text { Keeps (W.contents output) (text_written W.contents result) }
{
    WriterBuilder::new().flexible(true).from_writer(output)
}

/// Writes one record.
pub(crate) fn put_record<W: Write + Drop>(
    writer: &mut Writer<W>,
    fields: &[&[u8]],
) -> Result<(), OutFault>
    requires { IsBetween writer.old }
    ensures { Puts W.contents writer.old writer.new result (map (λ field. field.now) fields.now) }
{
    match writer.write_fields(fields) {
        Ok(()) => Ok(()),
        Err(error) => Err(fault_of(error)),
    }
}

/// Flushes the writer, and returns the one underneath.
pub(crate) fn finish<W: Write + Drop>(writer: Writer<W>) -> Result<W, OutFault>
    ensures { IfOk result (λ output. Keeps (text_written W.contents writer) (W.contents output)) }
{
    match writer.into_inner() {
        Ok(output) => Ok(output),
        Err(_) => Err(OutFault::Write),
    }
}

fn fault_of(error: Error) -> OutFault {
    match error.into_kind() {
        ErrorKind::OutOfMemory => OutFault::Memory,
        _ => OutFault::Write,
    }
}
