//! Reading of histories.

ghost use Rattle.std.specs.Prelude.{◌≡◌, ◌≤◌, IfErr, IfOk, OnOk, length, max};
ghost use Rattle.std.specs.Option.{ForSome};
ghost use Rattle.bw_step.specs.Trails.{lists_of};
ghost use Rattle.bw_texts.specs.Histories.{AddsLine, AddsReceipt, HaveRisingKeys, IsAfter, IsTextOf, KeepsAll, rows_in};
ghost use Rattle.bw_texts.specs.Lines.{history_line, last_key};
ghost use Rattle.bw_texts.specs.Reading.{ExplainsFault, IsExcused};

use crate::fault::TextFault;
use crate::history::line::{Line, read_line};
use crate::text::{next_record, open};
use bw_keys::Key;
use bw_step::Receipt;
use csv::ByteRecord;
use std::alloc::Global;
use std::io::Read;

/// The most rows that a history may have.
pub const MOST_HISTORY_ROWS: u64 = 2_000_000;

/// The receipts of all workers, and the pairs of the final map.
#[derive(Debug, PartialEq, Eq, Drop)]
pub struct History {
    /// The receipts of each worker, in their order, from worker 0 to the greatest one named.
    pub trails: Vec<Vec<Receipt>>,
    /// The pairs of the final map, with strictly rising keys.
    pub pairs: Vec<(Key, u64)>,
}

/// Reads a history.
///
/// A row has five fields: a worker below 64; `ins`, `del`, `hit` or `none`; the number of the
/// change, or how many changes a look saw; the key; and the value, empty for `none`. A row with
/// `mod` has six: the number of the change, the key, its value, and the value that it had. After
/// them come the pairs of the final map, with rising keys: `end`, `pair`, 0, the key and the value.
/// A number is one to twenty decimal digits, and below 2^64.
///
/// # Errors
///
/// Fails with the first row that can't be read, with more than [`MOST_HISTORY_ROWS`] rows, or if
/// the reader or memory fails.
pub fn read_history<R: Read + Drop>(alloc: Global, input: R) -> Result<History, TextFault>
    ensures rows { IfOk result (λ history. ForSome (R.remaining input) (IsTextOf history)) }
    ensures ascending { IfOk result (λ history. HaveRisingKeys history.pairs.items) }
    ensures few { IfOk result (λ history. rows_in history ≤ MOST_HISTORY_ROWS) }
    ensures fault { IfErr result (λ fault. ForSome (R.remaining input)
        (λ bytes. ExplainsFault history_line MOST_HISTORY_ROWS bytes fault)) }
{
    let mut reader = open(alloc, input);
    let mut record = ByteRecord::new(alloc);
    let mut trails = Vec::new(alloc);
    let mut pairs = Vec::new(alloc);
    for done in 0..MOST_HISTORY_ROWS {
        if !next_record(&mut reader, &mut record)? {
            return Ok(History { trails, pairs });
        }
        match read_line(&record, last_key_of(&pairs)) {
            Ok(line) => add_line(alloc, &mut trails, &mut pairs, line)?,
            Err(part) => return Err(TextFault::Row(done + 1, part)),
        }
    }
    if next_record(&mut reader, &mut record)? {
        return Err(TextFault::Rows);
    }
    Ok(History { trails, pairs })
}

#[tactic(auto, using(crate::proofs::Trails::last_entry_is))]
fn last_key_of(pairs: &[(Key, u64)]) -> Option<Key>
    ensures { result ≡ last_key pairs.now }
{
    Some(pairs.last()?.0)
}

fn add_line(
    alloc: Global,
    trails: &mut Vec<Vec<Receipt>>,
    pairs: &mut Vec<(Key, u64)>,
    line: Line,
) -> Result<(), TextFault>
    requires ascending { HaveRisingKeys pairs.old.items }
    requires above { IsAfter (last_key pairs.old.items) line }
    ensures added { OnOk result (AddsLine (lists_of trails.old.items) (lists_of trails.new.items)
        pairs.old.items pairs.new.items line) }
    ensures ascending { OnOk result (HaveRisingKeys pairs.new.items) }
    ensures excused { IfErr result (λ fault. IsExcused fault) }
{
    match line {
        Line::Reply { worker, receipt } => add_receipt(alloc, trails, worker, receipt),
        Line::Pair { key, value } => {
            pairs.push((key, value))?;
            Ok(())
        }
    }
}

fn add_receipt(
    alloc: Global,
    trails: &mut Vec<Vec<Receipt>>,
    worker: u32,
    receipt: Receipt,
) -> Result<(), TextFault>
    ensures added { OnOk result
        (AddsReceipt (lists_of trails.old.items) (lists_of trails.new.items) worker receipt) }
    ensures excused { IfErr result (λ fault. IsExcused fault) }
{
    let place = worker as usize;
    fill_up(alloc, trails, place + 1)?;
    trails[place].push(receipt)?;
    Ok(())
}

/// Adds empty trails until there are `count`.
fn fill_up(alloc: Global, trails: &mut Vec<Vec<Receipt>>, count: usize) -> Result<(), TextFault>
    ensures count { OnOk result (length trails.new.items ≡ max (length trails.old.items) count) }
    ensures same { OnOk result (KeepsAll (lists_of trails.old.items) (lists_of trails.new.items)) }
    ensures excused { IfErr result (λ fault. IsExcused fault) }
{
    for _ in trails.len()..count {
        trails.push(Vec::new(alloc))?;
    }
    Ok(())
}
