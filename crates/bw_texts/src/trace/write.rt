//! Writing of traces.

ghost use Rattle.std.specs.Prelude.{IfOk};
ghost use Rattle.std.specs.Io.KnownBytes.{Appends};
ghost use Rattle.bw_texts.specs.Written.{IsBetween, Puts, fields_of_row, trace_text};

use crate::fault::OutFault;
use crate::output::{finish, start};
use crate::trace::act::put_act;
use crate::trace::row::Row;
use csv::Writer;
use std::io::Write;

/// Writes a trace, as [`read_trace`](crate::read_trace) reads it, and returns the writer.
pub fn write_trace<W: Write + Drop>(output: W, rows: &[Row]) -> Result<W, OutFault>
    ensures { IfOk result (λ written. Appends (W.contents output) (W.contents written)
        (trace_text rows.now)) }
{
    let mut writer = start(output);
    for row in rows {
        write_row(&mut writer, row)?;
    }
    finish(writer)
}

fn write_row<W: Write + Drop>(writer: &mut Writer<W>, row: &Row) -> Result<(), OutFault>
    requires { IsBetween writer.old }
    ensures { Puts W.contents writer.old writer.new result (fields_of_row row.now) }
{
    put_act(writer, row.worker, row.act)
}
