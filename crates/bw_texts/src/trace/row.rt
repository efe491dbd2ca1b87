//! The rows of a trace.

ghost use Rattle.std.specs.Prelude.{◌≡◌, ◌<◌, ◌↔◌, IfOk, true};
ghost use Rattle.std.specs.List.{AllByRecursion};
ghost use Rattle.csv.specs.Records.{fields_of};
ghost use Rattle.bw_texts.specs.Rows.{row_of, row_of_fields};

use crate::number::{field, number, worker};
use crate::part::Part;
use crate::trace::act::{read_act, read_op};
use bw_procedures::Act;
use csv::ByteRecord;

/// A row of a trace: what one worker does.
#[derive(Clone, Copy, Debug, PartialEq, Eq, Hash)]
pub struct Row {
    /// The worker's number, counted from 0.
    pub worker: u32,
    pub act: Act,
}

/// Returns whether each row's worker is below `workers`, as a run requires of its trace.
pub fn is_trace_for(rows: &[Row], workers: u32) -> bool
    ensures { (result ≡ true) ↔ AllByRecursion (λ row. row.worker < workers) rows.now }
{
    for row in rows {
        if row.worker >= workers {
            return false;
        }
    }
    true
}

/// Reads the row of a record, or returns its first faulty part.
pub(crate) fn read_row(fields: &ByteRecord, workers: u32) -> Result<Row, Part>
    ensures reading { result ≡ row_of workers (fields_of fields.now) }
    ensures worker { IfOk result (λ row. row.worker < workers) }
{
    if fields.len() != 4 {
        return Err(Part::Fields);
    }
    read_fields(
        workers,
        field(fields, 0),
        field(fields, 1),
        field(fields, 2),
        field(fields, 3),
    )
}

fn read_fields(workers: u32, first: &[u8], op: &[u8], key: &[u8], value: &[u8]) -> Result<Row, Part>
    ensures reading { result ≡ row_of_fields workers first.now op.now key.now value.now }
    ensures worker { IfOk result (λ row. row.worker < workers) }
{
    let worker = worker(first, workers).ok_or(Part::Worker)?;
    let op = read_op(op).ok_or(Part::Op)?;
    let key = number(key).ok_or(Part::Key)?;
    let act = read_act(op, key, value).ok_or(Part::Value)?;
    Ok(Row { worker, act })
}
