//! The acts of a trace's rows: the word for each, and what follows it.

ghost use Rattle.std.specs.Prelude.{◌≡◌, ◌∷◌, [], decimal};
ghost use Rattle.bw_texts.specs.Rows.{act_of, fence_of, op_of};
ghost use Rattle.bw_texts.specs.Written.{IsBetween, Puts, fence_text, fields_of_act};

use crate::fault::OutFault;
use crate::number::number;
use crate::output::put_record;
use bw_keys::{Fence, Key};
use bw_procedures::Act;
use csv::Writer;
use itoa::Buffer;
use std::io::Write;

/// The word of an act.
#[derive(Clone, Copy, Debug, PartialEq, Eq)]
pub(crate) enum Op {
    Put,
    Set,
    Get,
    Delete,
    Clear,
}

/// Reads the word of an act.
pub(crate) fn read_op(text: &[u8]) -> Option<Op>
    ensures { result ≡ op_of text.now }
{
    match text {
        b"put" => Some(Op::Put),
        b"set" => Some(Op::Set),
        b"get" => Some(Op::Get),
        b"del" => Some(Op::Delete),
        b"clr" => Some(Op::Clear),
        _ => None,
    }
}

/// Reads the act of the word, with the row's last field.
pub(crate) fn read_act(op: Op, key: Key, value: &[u8]) -> Option<Act>
    ensures { result ≡ act_of op key value.now }
{
    match op {
        Op::Put => {
            let value = number(value)?;
            Some(Act::Put { key, value })
        }
        Op::Set => {
            let value = number(value)?;
            Some(Act::Set { key, value })
        }
        Op::Get => value.is_empty().then_some(Act::Get { key }),
        Op::Delete => value.is_empty().then_some(Act::Delete { key }),
        Op::Clear => {
            let high = read_fence(value)?;
            Some(Act::Clear { low: key, high })
        }
    }
}

/// Reads where a range ends: before a key, or at the top if the text is empty.
fn read_fence(text: &[u8]) -> Option<Fence>
    ensures { result ≡ fence_of text.now }
{
    if text.is_empty() {
        return Some(Fence::Top);
    }
    let high = number(text)?;
    Some(Fence::Key(high))
}

/// Writes the row of an act.
pub(crate) fn put_act<W: Write + Drop>(
    writer: &mut Writer<W>,
    worker: u32,
    act: Act,
) -> Result<(), OutFault>
    requires { IsBetween writer.old }
    ensures { Puts W.contents writer.old writer.new result (decimal worker ∷ fields_of_act act) }
{
    match act {
        Act::Put { key, value } => put_valued(writer, worker, b"put", key, value),
        Act::Set { key, value } => put_valued(writer, worker, b"set", key, value),
        Act::Get { key } => put_bare(writer, worker, b"get", key),
        Act::Delete { key } => put_bare(writer, worker, b"del", key),
        Act::Clear { low, high } => put_range(writer, worker, b"clr", low, high),
    }
}

/// Writes a row with the range from the low on and below the high, which is an empty field at the
/// top.
fn put_range<W: Write + Drop>(
    writer: &mut Writer<W>,
    worker: u32,
    op: &[u8],
    low: Key,
    high: Fence,
) -> Result<(), OutFault>
    requires { IsBetween writer.old }
    ensures { Puts W.contents writer.old writer.new result
        (decimal worker ∷ op.now ∷ decimal low ∷ fence_text high ∷ []) }
{
    match high {
        Fence::Key(high) => put_valued(writer, worker, op, low, high),
        Fence::Top => put_bare(writer, worker, op, low),
    }
}

/// Writes a row with a number in its last field.
fn put_valued<W: Write + Drop>(
    writer: &mut Writer<W>,
    worker: u32,
    op: &[u8],
    key: Key,
    value: u64,
) -> Result<(), OutFault>
    requires { IsBetween writer.old }
    ensures { Puts W.contents writer.old writer.new result
        (decimal worker ∷ op.now ∷ decimal key ∷ decimal value ∷ []) }
{
    let mut worker_digits = Buffer::new();
    let mut key_digits = Buffer::new();
    let mut value_digits = Buffer::new();
    let worker = worker_digits.format(worker).as_bytes();
    let key = key_digits.format(key).as_bytes();
    let value = value_digits.format(value).as_bytes();
    put_record(writer, &[worker, op, key, value])
}

/// Writes a row with an empty last field.
fn put_bare<W: Write + Drop>(
    writer: &mut Writer<W>,
    worker: u32,
    op: &[u8],
    key: Key,
) -> Result<(), OutFault>
    requires { IsBetween writer.old }
    ensures { Puts W.contents writer.old writer.new result
        (decimal worker ∷ op.now ∷ decimal key ∷ [] ∷ []) }
{
    let mut worker_digits = Buffer::new();
    let mut key_digits = Buffer::new();
    let worker = worker_digits.format(worker).as_bytes();
    let key = key_digits.format(key).as_bytes();
    put_record(writer, &[worker, op, key, b""])
}
