//! Pairs of C's array, set in a map or made into one.

ghost use Rattle.std.specs.Prelude.{◌≡◌, ◌≢◌, ◌≤◌, None, true, IfOk, IfErr, OnOk, length, take};
ghost use Rattle.bw_delta.specs.Entries.{rises};
ghost use Rattle.bw_keys.specs.Ranges.{key_count};
ghost use Rattle.nifforan.specs.Calls.{set_all};
ghost use Rattle.nifforan.specs.Growing.{HasAllPages};
ghost use Rattle.nifforan.specs.Settings.{first_bad_setting};
ghost use Rattle.nifforan_handle.specs.Filling.{OpensSorted, WhyNotSorted};
ghost use Rattle.nifforan_handle.specs.Reading.{are_pairs};
ghost use Rattle.nifforan_handle.specs.Statuses.{TellsFault};
ghost use Rattle.nifforan_handle.specs.declared.status.TheConstants.{OK, TABLE_FULL};

use crate::answer::Pair;
use crate::filled::Filled;
use crate::handle::Handle;
use crate::held::Held;
use crate::settings::{SETTINGS_SIZE, Settings};
use crate::status::{self, BAD_SIZE, NO_MEMORY, OK, OPEN, UNSORTED};
use bw_keys::{Config, Key};
use nifforan::{Map, NewFault, SortedFault};
use std::alloc::Global;

/// Sets the key of each pair to its value, one after the other, until a fault ends it.
pub(crate) fn set_each(map: &mut Map<Global>, pairs: &[Pair]) -> Filled
    ensures sets { map.new.pairs ≡ set_all (take result.count (are_pairs pairs.now)) map.old.pairs }
    ensures few { result.count ≤ length pairs.now }
    ensures all { result.status ≡ OK → result.count ≡ length pairs.now }
    ensures reported { result.status ≢ OK → TellsFault result.status }
    ensures beside { result.status ≢ OK → result.care ≡ OK }
    ensures care { result.care ≢ OK → TellsFault result.care }
    ensures full { result.status ≡ TABLE_FULL → HasAllPages map.new }
    ensures full_care { result.care ≡ TABLE_FULL → HasAllPages map.new }
    ensures config { map.new.config ≡ map.old.config }
{
    take_ahead(map, pairs.len());
    let mut fault = None;
    for number in 0..pairs.len() {
        let Pair { key, value } = pairs[number];
        match map.set(key, value) {
            Ok(done) => fault = fault.or(done.fault),
            Err(failed) => return Filled::ended(status::of_fault(failed), number as u64),
        }
    }
    Filled::whole(fault, pairs.len() as u64)
}

/// Takes memory ahead for so many pairs. Without it, pages are added as they are needed.
fn take_ahead(map: &mut Map<Global>, pairs: usize)
    ensures pairs { map.new.pairs ≡ map.old.pairs }
    ensures config { map.new.config ≡ map.old.config }
{
    // Some of the keys may be in the map already.
    let new = if map.is_empty() { pairs } else { pairs / 2 };
    let _ahead = map.reserve(new as u64);
}

impl Handle {
    /// Opens a closed handle on a map of these pairs, whose keys must rise. Any status but `OK`
    /// leaves the handle as it is: a status of `create`, `UNSORTED` if a key isn't above the one
    /// before it, or a fault. The count is the number of pairs or, with `UNSORTED`, of those that
    /// rise.
    pub fn from_sorted(&mut self, alloc: Global, settings: &Settings, pairs: &[Pair]) -> Filled
        ensures { OpensSorted settings.now (are_pairs pairs.now) result
            self.old.held self.new.held }
    {
        if self.is_open(alloc) {
            return Filled::ended(OPEN, 0);
        }
        if settings.size != SETTINGS_SIZE {
            return Filled::ended(BAD_SIZE, 0);
        }
        let made = match sorted(alloc, settings.config(), pairs) {
            Ok(made) => made,
            Err(SortedFault::New(NewFault::BadConfig(bad))) => {
                return Filled::ended(status::of_field(bad.0), 0);
            }
            Err(SortedFault::New(NewFault::NoMemory)) => return Filled::ended(NO_MEMORY, 0),
            Err(SortedFault::Unsorted(number)) => return Filled::ended(UNSORTED, number),
            Err(SortedFault::Put(fault)) => return Filled::ended(status::of_fault(fault), 0),
        };
        match self.open(alloc, Held::Own(made)) {
            OK => Filled::whole(None, pairs.len() as u64),
            status => Filled::ended(status, 0),
        }
    }
}

/// Creates a map with the pairs, whose keys must rise.
fn sorted(alloc: Global, config: Config, pairs: &[Pair]) -> Result<Map<Global>, SortedFault>
    ensures pairs { IfOk result (λ map. map.pairs ≡ are_pairs pairs.now) }
    ensures rise { OnOk result (rises 0 key_count (are_pairs pairs.now) ≡ true) }
    ensures config { IfOk result (λ map. map.config ≡ config) }
    ensures fine { OnOk result (first_bad_setting config ≡ None) }
    ensures fault { IfErr result (WhyNotSorted config (are_pairs pairs.now)) }
{
    Map::from_sorted(alloc, alloc, config, PairsOf(pairs))
}

/// The pairs of C's array, one after the other.
#[derive(Drop)]
struct PairsOf<'p>(&'p [Pair]);

impl<'p> Iterator for PairsOf<'p> {
    ghost use Rattle.std.specs.Iterator.{YieldsFirst, item_count};
    ghost use Rattle.nifforan_handle.specs.Reading.{are_pairs};

    type Item = (Key, u64);

    ghost next_gives = { YieldsFirst (λ left. are_pairs left.0.now) };

    ghost remaining = { item_count (λ left. are_pairs left.0.now) };

    #[inline(always)]
    fn next(&mut self) -> Option<(Key, u64)> {
        let (first, rest) = self.0.split_first()?;
        self.0 = rest;
        Some((first.key, first.value))
    }
}
