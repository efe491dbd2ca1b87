//! Writing of histories.

ghost use Rattle.std.specs.Prelude.{◌∷◌, [], IfOk, codes, decimal, flat_map};
ghost use Rattle.std.specs.Io.KnownBytes.{Appends};
ghost use Rattle.bw_step.specs.Trails.{lists_of};
ghost use Rattle.bw_texts.specs.Written.{IsBetween, Puts, Writes};
ghost use Rattle.bw_texts.specs.WrittenHistories.{history_text, pair_text, receipt_text, trail_text, trails_text};

use crate::fault::OutFault;
use crate::output::{finish, put_record, start};
use bw_keys::Key;
use bw_step::Receipt;
use csv::Writer;
use itoa::Buffer;
use std::io::Write;

/// Writes a history, as [`read_history`](crate::read_history) reads it, and returns the writer: the
/// trails worker by worker, without the receipts of changed shapes, and then the pairs.
pub fn write_history<W: Write + Drop>(
    output: W,
    trails: &[Vec<Receipt>],
    pairs: &[(Key, u64)],
) -> Result<W, OutFault>
    ensures { IfOk result (λ written. Appends (W.contents output) (W.contents written)
        (history_text (lists_of trails.now) pairs.now)) }
{
    let mut writer = start(output);
    write_trails(&mut writer, trails)?;
    write_pairs(&mut writer, pairs)?;
    finish(writer)
}

fn write_trails<W: Write + Drop>(
    writer: &mut Writer<W>,
    trails: &[Vec<Receipt>],
) -> Result<(), OutFault>
    requires { IsBetween writer.old }
    ensures { Writes W.contents writer.old writer.new result (trails_text 0 (lists_of trails.now)) }
{
    for worker in 0..trails.len() {
        write_trail(writer, worker, &trails[worker])?;
    }
    Ok(())
}

fn write_trail<W: Write + Drop>(
    writer: &mut Writer<W>,
    worker: usize,
    trail: &[Receipt],
) -> Result<(), OutFault>
    requires { IsBetween writer.old }
    ensures { Writes W.contents writer.old writer.new result (trail_text worker trail.now) }
{
    for receipt in trail {
        write_receipt(writer, worker, receipt)?;
    }
    Ok(())
}

fn write_receipt<W: Write + Drop>(
    writer: &mut Writer<W>,
    worker: usize,
    receipt: &Receipt,
) -> Result<(), OutFault>
    requires { IsBetween writer.old }
    ensures { Writes W.contents writer.old writer.new result (receipt_text worker receipt.now) }
{
    let mut digits = Buffer::new();
    let worker = digits.format(worker).as_bytes();
    match *receipt {
        Receipt::Inserted { number, key, value } => {
            put_reply(writer, worker, b"ins", number, key, value)
        }
        Receipt::Deleted { number, key, value } => {
            put_reply(writer, worker, b"del", number, key, value)
        }
        Receipt::Modified {
            number,
            key,
            old,
            value,
        } => put_modified(writer, worker, number, key, (old, value)),
        Receipt::Looked {
            at,
            key,
            found: Some(value),
        } => put_reply(writer, worker, b"hit", at, key, value),
        Receipt::Looked {
            at,
            key,
            found: None,
        } => put_missing(writer, worker, at, key),
        Receipt::Shaped { .. } => Ok(()),
    }
}

fn put_reply<W: Write + Drop>(
    writer: &mut Writer<W>,
    first: &[u8],
    op: &[u8],
    at: u64,
    key: Key,
    value: u64,
) -> Result<(), OutFault>
    requires { IsBetween writer.old }
    ensures { Puts W.contents writer.old writer.new result
        (first.now ∷ op.now ∷ decimal at ∷ decimal key ∷ decimal value ∷ []) }
{
    let mut at_digits = Buffer::new();
    let mut key_digits = Buffer::new();
    let mut value_digits = Buffer::new();
    let at = at_digits.format(at).as_bytes();
    let key = key_digits.format(key).as_bytes();
    let value = value_digits.format(value).as_bytes();
    put_record(writer, &[first, op, at, key, value])
}

/// Writes a modification, with the old value in a sixth field.
fn put_modified<W: Write + Drop>(
    writer: &mut Writer<W>,
    worker: &[u8],
    number: u64,
    key: Key,
    values: (u64, u64),
) -> Result<(), OutFault>
    requires { IsBetween writer.old }
    ensures { Puts W.contents writer.old writer.new result
        (worker.now ∷ codes "mod" ∷ decimal number ∷ decimal key
        ∷ decimal values.1 ∷ decimal values.0 ∷ []) }
{
    let (old, value) = values;
    let mut number_digits = Buffer::new();
    let mut key_digits = Buffer::new();
    let mut value_digits = Buffer::new();
    let mut old_digits = Buffer::new();
    let number = number_digits.format(number).as_bytes();
    let key = key_digits.format(key).as_bytes();
    let value = value_digits.format(value).as_bytes();
    let old = old_digits.format(old).as_bytes();
    put_record(writer, &[worker, b"mod", number, key, value, old])
}

fn put_missing<W: Write + Drop>(
    writer: &mut Writer<W>,
    worker: &[u8],
    at: u64,
    key: Key,
) -> Result<(), OutFault>
    requires { IsBetween writer.old }
    ensures { Puts W.contents writer.old writer.new result
        (worker.now ∷ codes "none" ∷ decimal at ∷ decimal key ∷ [] ∷ []) }
{
    let mut at_digits = Buffer::new();
    let mut key_digits = Buffer::new();
    let at = at_digits.format(at).as_bytes();
    let key = key_digits.format(key).as_bytes();
    put_record(writer, &[worker, b"none", at, key, b""])
}

fn write_pairs<W: Write + Drop>(
    writer: &mut Writer<W>,
    pairs: &[(Key, u64)],
) -> Result<(), OutFault>
    requires { IsBetween writer.old }
    ensures { Writes W.contents writer.old writer.new result (flat_map pair_text pairs.now) }
{
    for pair in pairs {
        write_pair(writer, pair)?;
    }
    Ok(())
}

fn write_pair<W: Write + Drop>(writer: &mut Writer<W>, pair: &(Key, u64)) -> Result<(), OutFault>
    requires { IsBetween writer.old }
    ensures { Writes W.contents writer.old writer.new result (pair_text pair.now) }
{
    put_reply(writer, b"end", b"pair", 0, pair.0, pair.1)
}
