//! Numbers and words as they stand in the fields of a row.

ghost use Rattle.std.specs.Prelude.{◌≡◌, ◌<◌, [], IfSome, slice_index_or};
ghost use Rattle.csv.specs.Records.{fields_of};
ghost use Rattle.bw_texts.specs.Numbers.{number_of, worker_of};

use csv::ByteRecord;

/// The most digits of a number, with its leading zeros.
const MOST_DIGITS: usize = 20;

/// Returns the number that one to twenty decimal digits write, if it is below 2^64.
pub(crate) fn number(text: &[u8]) -> Option<u64>
    ensures { result ≡ number_of text.now }
{
    if text.is_empty() || text.len() > MOST_DIGITS {
        return None;
    }
    let mut value: u64 = 0;
    for digit in text {
        if *digit < b'0' || *digit > b'9' {
            return None;
        }
        value = value
            .checked_mul(10)?
            .checked_add(u64::from(*digit - b'0'))?;
    }
    Some(value)
}

/// Returns the worker's number, if it is below `workers`.
pub(crate) fn worker(text: &[u8], workers: u32) -> Option<u32>
    ensures reading { result ≡ worker_of workers text.now }
    ensures below { IfSome result (λ worker. worker < workers) }
{
    match u32::try_from(number(text)?) {
        Ok(worker) if worker < workers => Some(worker),
        _ => None,
    }
}

/// Returns the field at a place, or an empty one past the end.
#[tactic(auto, using(crate::proofs::Fields::field_there, crate::proofs::Fields::field_away))]
pub(crate) fn field(fields: &ByteRecord, place: usize) -> &[u8]
    ensures { result.now ≡ slice_index_or (fields_of fields.now) place [] }
{
    match fields.get(place) {
        Some(field) => field,
        None => &[],
    }
}
