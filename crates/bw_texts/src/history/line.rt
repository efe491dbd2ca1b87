//! The rows of a history.

ghost use Rattle.std.specs.Prelude.{◌≡◌, ◌==◌, None, Some, IfOk, cond, length};
ghost use Rattle.bw_step.specs.declared.receipt.Receipt.TheVariants.{Looked};
ghost use Rattle.csv.specs.Records.{fields_of};
ghost use Rattle.bw_texts.specs.Histories.{IsAfter};
ghost use Rattle.bw_texts.specs.Lines.{field_count, form_of, line_of, line_of_fields, modified_read, pair_line, receipt_read, reply_line};

use crate::number::{field, number, worker};
use crate::part::Part;
use bw_keys::{Key, MAX_WORKERS};
use bw_step::Receipt;
use csv::ByteRecord;

/// A row of a history.
#[derive(Clone, Copy)]
pub(crate) enum Line {
    /// A receipt of a worker.
    Reply { worker: u32, receipt: Receipt },
    /// A pair of the final map.
    Pair { key: Key, value: u64 },
}

/// Reads the row of a record, where `last` is the key of the last `end` row before it.
///
/// # Errors
///
/// Fails with the first faulty part.
pub(crate) fn read_line(fields: &ByteRecord, last: Option<Key>) -> Result<Line, Part>
    ensures line { result ≡ line_of last (fields_of fields.now) }
    ensures above { IfOk result (λ line. IsAfter last line) }
{
    if fields.len() != field_count(field(fields, 1)) {
        return Err(Part::Fields);
    }
    read_fields(
        last,
        field(fields, 0),
        field(fields, 1),
        field(fields, 2),
        field(fields, 3),
        field(fields, 4),
        field(fields, 5),
    )
}

/// Returns how many fields a row has: six for a modification, and five for others.
fn field_count(op: &[u8]) -> usize
    ensures { result ≡ field_count op.now }
{
    match op {
        b"mod" => 6,
        _ => 5,
    }
}

fn read_fields(
    last: Option<Key>,
    first: &[u8],
    op: &[u8],
    at: &[u8],
    key: &[u8],
    value: &[u8],
    old: &[u8],
) -> Result<Line, Part>
    ensures line { result ≡ line_of_fields last first.now op.now at.now key.now value.now old.now }
    ensures above { IfOk result (λ line. IsAfter last line) }
{
    match first {
        b"end" => read_pair(last, op, at, key, value),
        _ => read_reply(last, first, op, at, key, value, old),
    }
}

/// Reads a worker's row; none may follow an `end` row.
fn read_reply(
    last: Option<Key>,
    first: &[u8],
    op: &[u8],
    at: &[u8],
    key: &[u8],
    value: &[u8],
    old: &[u8],
) -> Result<Line, Part>
    ensures line { result ≡ reply_line last first.now op.now at.now key.now value.now old.now }
    ensures above { IfOk result (λ line. IsAfter last line) }
{
    if last.is_some() {
        return Err(Part::Worker);
    }
    let worker = worker(first, MAX_WORKERS).ok_or(Part::Worker)?;
    let form = read_form(op).ok_or(Part::Op)?;
    let at = number(at).ok_or(Part::Key)?;
    let key = number(key).ok_or(Part::Key)?;
    let receipt = read_receipt(form, at, key, value, old)?;
    Ok(Line::Reply { worker, receipt })
}

/// Reads an `end` row, whose key is above that of the one before it.
fn read_pair(
    last: Option<Key>,
    op: &[u8],
    zero: &[u8],
    key: &[u8],
    value: &[u8],
) -> Result<Line, Part>
    ensures line { result ≡ pair_line last op.now zero.now key.now value.now }
    ensures above { IfOk result (λ line. IsAfter last line) }
{
    if !matches!(op, b"pair") {
        return Err(Part::Op);
    }
    if number(zero) != Some(0) {
        return Err(Part::Key);
    }
    let key = number(key).ok_or(Part::Key)?;
    if last.is_some_and(|last| key <= last) {
        return Err(Part::Key);
    }
    let value = number(value).ok_or(Part::Value)?;
    Ok(Line::Pair { key, value })
}

#[derive(Clone, Copy)]
enum Form {
    Inserted,
    Deleted,
    Modified,
    Found,
    Missing,
}

fn read_form(text: &[u8]) -> Option<Form>
    ensures { result ≡ form_of text.now }
{
    match text {
        b"ins" => Some(Form::Inserted),
        b"del" => Some(Form::Deleted),
        b"mod" => Some(Form::Modified),
        b"hit" => Some(Form::Found),
        b"none" => Some(Form::Missing),
        _ => None,
    }
}

fn read_receipt(form: Form, at: u64, key: Key, value: &[u8], old: &[u8]) -> Result<Receipt, Part>
    ensures { result ≡ receipt_read form at key value.now old.now }
{
    match form {
        Form::Missing => read_missing(at, key, value).ok_or(Part::Value),
        Form::Modified => read_modified(at, key, value, old),
        Form::Inserted => {
            let value = number(value).ok_or(Part::Value)?;
            Ok(Receipt::Inserted {
                number: at,
                key,
                value,
            })
        }
        Form::Deleted => {
            let value = number(value).ok_or(Part::Value)?;
            Ok(Receipt::Deleted {
                number: at,
                key,
                value,
            })
        }
        Form::Found => {
            let value = number(value).ok_or(Part::Value)?;
            Ok(Receipt::Looked {
                at,
                key,
                found: Some(value),
            })
        }
    }
}

fn read_missing(at: u64, key: Key, value: &[u8]) -> Option<Receipt>
    ensures { result ≡ cond (length value.now == 0) (Some (Looked at key None)) None }
{
    value.is_empty().then_some(Receipt::Looked {
        at,
        key,
        found: None,
    })
}

/// Reads a modification: the value that the key has, and then the one that it had.
fn read_modified(at: u64, key: Key, value: &[u8], old: &[u8]) -> Result<Receipt, Part>
    ensures { result ≡ modified_read at key value.now old.now }
{
    let value = number(value).ok_or(Part::Value)?;
    let old = number(old).ok_or(Part::Old)?;
    Ok(Receipt::Modified {
        number: at,
        key,
        old,
        value,
    })
}
