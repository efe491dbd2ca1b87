//! The pairs of one tree in the order of their keys, leaf by leaf.

ghost use Rattle.std.specs.Prelude.{◌≡◌, ◌+◌, ◌++◌, ◌<◌, ◌≤◌, IfOk, IfErr, OnErr, length, take, drop};
ghost use Rattle.bw_keys.specs.Ranges.{end_of};
ghost use Rattle.bw_procedures.specs.Calls.{Earned, OnlySpends};
ghost use Rattle.bw_procedures.specs.Clearing.{LieBelow, StartFrom};
ghost use Rattle.bw_procedures.specs.Slices.{end_of_slice};
ghost use Rattle.nifforan_forest.specs.Reads.{WasThere};
ghost use Rattle.nifforan_forest.specs.Scans.{AppendsFirst, Scans, uncounted};

use crate::fences::end_among_keys;
use crate::hand::ForestHand;
use bw_delta::NoMemory;
use bw_keys::{Fence, Key};
use bw_procedures::Fault;

/// Appends the tree's pairs from the low on and below the high to the list, until it has appended
/// `limit` pairs or there are no more, and returns how many it appended.
pub(crate) fn scan_tree<H: ForestHand>(
    hand: &mut H,
    low: Key,
    high: Fence,
    limit: usize,
    list: &mut Vec<(Key, u64)>,
) -> Result<usize, Fault>
    requires within { low < end_of high }
    ensures follows { H.follows hand.old hand.new }
    ensures spends { OnlySpends (H.seen hand.old) (H.seen hand.new) }
    ensures count { IfOk result
        (λ count. length list.new.items ≡ length list.old.items + count) }
    ensures scans { Scans (λ key found. WasThere H.follows H.shows key found hand.old hand.new)
        low (end_of high) limit (uncounted result) list.old.items list.new.items }
    ensures fault { IfErr result (Earned (H.seen hand.old) (H.seen hand.new)) }
{
    let mut count = 0;
    let mut at = low;
    'leaves: while count < limit && high.is_above(at) {
        let begun = list.len();
        let end = scan_leaf(hand, at, high, limit - count, list)?;
        count += list.len() - begun;
        let Fence::Key(next) = end else {
            end_among_keys(high);
            return Ok(count);
        };
        at = next;
    }
    Ok(count)
}

/// Appends the pairs of the key's leaf that lie from the key on and below the high to the list, the
/// first `limit` of them, and returns where the leaf ends. They go straight into the list if the
/// hand reads a leaf in one step; otherwise by a copy of the leaf.
fn scan_leaf<H: ForestHand>(
    hand: &mut H,
    key: Key,
    high: Fence,
    limit: usize,
    list: &mut Vec<(Key, u64)>,
) -> Result<Fence, Fault>
    ensures follows { H.follows hand.old hand.new }
    ensures spends { OnlySpends (H.seen hand.old) (H.seen hand.new) }
    ensures read { IfOk result (λ end. AppendsFirst (H.shows hand.new) key (end_of high) limit
        (end_of end) list.old.items list.new.items) }
    ensures unchanged { OnErr result (list.new.items ≡ list.old.items) }
    ensures fault { IfErr result (Earned (H.seen hand.old) (H.seen hand.new)) }
{
    if let Some(end) = hand.read_at_once(key, high, limit, list)? {
        return Ok(end);
    }
    let machine = hand.alloc();
    let slice = hand.page_from(machine, key)?;
    append_below(slice.pairs.as_slice(), high, limit, list)?;
    Ok(end_before(slice.next))
}

/// Returns the end of the leaf after which the next one begins here, or that of the last leaf.
fn end_before(next: Option<Key>) -> Fence
    ensures { end_of result ≡ end_of_slice next }
{
    match next {
        Some(next) => Fence::Key(next),
        None => Fence::Top,
    }
}

/// Appends the first of the pairs to the list, `limit` at most, as long as they lie below the high,
/// and returns how many.
fn append_below(
    pairs: &[(Key, u64)],
    high: Fence,
    limit: usize,
    list: &mut Vec<(Key, u64)>,
) -> Result<usize, NoMemory>
    ensures list { IfOk result (λ count.
        list.new.items ≡ list.old.items ++ take count pairs.now) }
    ensures few { IfOk result (λ count. (count ≤ limit) × (count ≤ length pairs.now)) }
    ensures below { IfOk result (λ count. LieBelow (end_of high) (take count pairs.now)) }
    ensures all { IfOk result (λ count. count < limit
        → StartFrom (end_of high) (drop count pairs.now)) }
    ensures unchanged { OnErr result (list.new.items ≡ list.old.items) }
{
    let mut count = 0;
    while count < limit && count < pairs.len() && high.is_above(pairs[count].0) {
        count += 1;
    }
    list.extend_from_slice(&pairs[..count])?;
    Ok(count)
}
