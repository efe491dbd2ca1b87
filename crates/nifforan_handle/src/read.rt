//! Pairs read into C's array, by rising or falling keys.

ghost use Rattle.std.specs.Prelude.{◌≡◌, ◌+◌, ◌≤◌, ◌++◌, length, take, drop, min, reverse};
ghost use Rattle.bw_delta.specs.Slices.{list_of};
ghost use Rattle.bw_keys.specs.Ranges.{end_of};
ghost use Rattle.nifforan.specs.Maps.{within};
ghost use Rattle.nifforan_handle.specs.Calls.{ReadsInto};
ghost use Rattle.nifforan_handle.specs.Reading.{are_pairs};
ghost use Rattle.nifforan_handle.specs.declared.status.TheConstants.{OK};

use crate::answer::{Pair, Read};
use bw_delta::EntrySlice;
use bw_keys::{Fence, Key};
use nifforan::{Map, Pairs};
use std::alloc::Global;

pub(crate) fn forwards(map: &Map<Global>, low: Key, high: Fence, places: &mut [Pair]) -> Read
    ensures status { result.status ≡ OK }
    ensures reads { ReadsInto (within low (end_of high) map.now.pairs) result
        places.old places.new }
{
    let mut left = pairs_between(map, low, high);
    let count = fill(&mut left, places);
    let next = match left.next() {
        Some(pair) => Some(pair.0),
        None => None,
    };
    Read::of(count, next)
}

pub(crate) fn backwards(map: &Map<Global>, low: Key, high: Fence, places: &mut [Pair]) -> Read
    ensures status { result.status ≡ OK }
    ensures reads { ReadsInto (reverse (within low (end_of high) map.now.pairs)) result
        places.old places.new }
{
    let mut left = pairs_between(map, low, high);
    let count = fill_back(&mut left, places);
    let next = match left.next_back() {
        Some(pair) => Some(pair.0),
        None => None,
    };
    Read::of(count, next)
}

/// Returns the pairs with keys from the low on and below the high.
fn pairs_between(map: &Map<Global>, low: Key, high: Fence) -> Pairs<'_, Global>
    ensures { result ≡ within low (end_of high) map.now.pairs }
{
    match high {
        Fence::Key(high) => map.range(low..high),
        Fence::Top => map.range(low..),
    }
}

/// Writes the pairs that are left to the places, until no place or no pair is left, and returns
/// their number.
fn fill(left: &mut Pairs<'_, Global>, places: &mut [Pair]) -> usize
    ensures count { result ≡ min (length places.old) (length left.old) }
    ensures left { left.new ≡ drop result left.old }
    ensures pairs { are_pairs (take result places.new) ≡ take result left.old }
    ensures rest { drop result places.new ≡ drop result places.old }
{
    let mut count = 0;
    while count < places.len() {
        let Some((key, value)) = left.next() else {
            break;
        };
        places[count] = Pair { key, value };
        count += 1;
        let run = left.take_run(places.len() - count);
        write_run(run, places, count);
        count += run.len();
    }
    count
}

/// Writes the pairs to the places from the one with the number on.
fn write_run(run: EntrySlice<'_, u64>, places: &mut [Pair], first: usize)
    requires room { first + length (list_of run) ≤ length places.old }
    ensures written { are_pairs (take (first + length (list_of run.entry)) places.new)
        ≡ are_pairs (take first places.old) ++ list_of run.entry }
    ensures rest { drop (first + length (list_of run.entry)) places.new
        ≡ drop (first + length (list_of run.entry)) places.old }
{
    for number in 0..run.len() {
        let (key, value) = run.entry(number);
        places[first + number] = Pair { key, value };
    }
}

/// Does the same from the back: the last of the pairs comes first.
fn fill_back(left: &mut Pairs<'_, Global>, places: &mut [Pair]) -> usize
    ensures count { result ≡ min (length places.old) (length (reverse left.old)) }
    ensures left { reverse left.new ≡ drop result (reverse left.old) }
    ensures pairs { are_pairs (take result places.new) ≡ take result (reverse left.old) }
    ensures rest { drop result places.new ≡ drop result places.old }
{
    let mut count = 0;
    while count < places.len() {
        let Some((key, value)) = left.next_back() else {
            break;
        };
        places[count] = Pair { key, value };
        count += 1;
    }
    count
}
