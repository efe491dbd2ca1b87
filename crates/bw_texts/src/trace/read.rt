//! Reading of traces.

ghost use Rattle.std.specs.Prelude.{◌<◌, ◌≤◌, IfErr, IfOk, length};
ghost use Rattle.std.specs.List.{AllByRecursion};
ghost use Rattle.std.specs.Option.{ForSome};
ghost use Rattle.bw_texts.specs.Reading.{ExplainsFault};
ghost use Rattle.bw_texts.specs.Traces.{IsTrace, trace_row};

use crate::fault::TextFault;
use crate::text::{next_record, open};
use crate::trace::row::{Row, read_row};
use csv::ByteRecord;
use std::alloc::Global;
use std::io::Read;

/// The most rows that a trace may have.
pub const MOST_TRACE_ROWS: u64 = 1_000_000;

/// Reads a trace for `workers` workers.
///
/// A row has four fields: the worker, counted from 0; `put`, `set`, `get`, `del` or `clr`; the key;
/// and the value of a put or a set, empty for a get or a delete. A `clr` has the low of its range
/// for a key and the high for a value, empty for a range up to the top. A number is one to twenty
/// decimal digits, and below 2^64.
///
/// # Errors
///
/// Fails with the first row that can't be read, with more than [`MOST_TRACE_ROWS`] rows, or if the
/// reader or memory fails.
pub fn read_trace<R: Read + Drop>(
    alloc: Global,
    input: R,
    workers: u32,
) -> Result<Vec<Row>, TextFault>
    ensures rows { IfOk result (λ rows. ForSome (R.remaining input) (IsTrace workers rows.items)) }
    ensures workers { IfOk result (λ all. AllByRecursion (λ row. row.worker < workers) all.items) }
    ensures few { IfOk result (λ rows. length rows.items ≤ MOST_TRACE_ROWS) }
    ensures fault { IfErr result (λ fault. ForSome (R.remaining input)
        (λ bytes. ExplainsFault (trace_row workers) MOST_TRACE_ROWS bytes fault)) }
{
    let mut reader = open(alloc, input);
    let mut record = ByteRecord::new(alloc);
    let mut rows = Vec::new(alloc);
    for done in 0..MOST_TRACE_ROWS {
        if !next_record(&mut reader, &mut record)? {
            return Ok(rows);
        }
        match read_row(&record, workers) {
            Ok(row) => rows.push(row)?,
            Err(part) => return Err(TextFault::Row(done + 1, part)),
        }
    }
    if next_record(&mut reader, &mut record)? {
        return Err(TextFault::Rows);
    }
    Ok(rows)
}
