//! The ordered map for C: a handle of eight bytes, and calls on it.
//!
//! A handle begins as zero, which is closed. `include/nifforan.h` describes each call for C.
#![tactic(auto)]

ghost use Rattle.std.specs.Prelude.{◌≡◌, ◌≢◌, ◌↔◌, None, length, reverse};
ghost use Rattle.bw_delta.specs.Entries.{at, first_entry, last_entry, first_from, last_upto};
ghost use Rattle.nifforan.specs.Calls.{Puts, Sets, Deletes, PopsFirst, PopsLast};
ghost use Rattle.nifforan_handle.specs.Answers.{had, value_of, IsZeroWithout};
ghost use Rattle.nifforan_handle.specs.Calls.{Creates, Writes, ClearsHeld, Reserves, Shrinks};
ghost use Rattle.nifforan_handle.specs.Calls.{SetsIfExpected, Pops, Extends, Finds, ReadsInto};
ghost use Rattle.nifforan_handle.specs.Filling.{OpensSorted};
ghost use Rattle.nifforan_handle.specs.Frozen.{Freezes, Shares, Thaws};
ghost use Rattle.nifforan_handle.specs.Held.{end_at, map_in, pairs_in, pairs_between};
ghost use Rattle.nifforan_handle.specs.Reading.{are_pairs};
ghost use Rattle.nifforan_handle.specs.declared.held.Held.TheVariants.{Closed};
ghost use Rattle.nifforan_handle.specs.declared.status.TheConstants.{CLOSED, OK};
ghost use Rattle.nifforan_handle.specs.declared.text.TheConstants.{VERSION};
ghost use Rattle.nifforan_handle.specs.Statuses.{EndsWithZero};

pub use nifforan_handle::{
    Cleared, Count, Filled, Found, Handle, High, Optional, Pair, Popped, Read, Reply, Settings,
    StatusText,
};
use std::alloc::Global;

/// Returns the library's version: 10,000 times its first number, 100 times its second, and its
/// third.
#[unsafe(no_mangle)]
pub extern "C" fn nifforan_version() -> u32
    ensures { result ≡ VERSION }
{
    nifforan_handle::VERSION
}

/// Returns what the status means, in a few words.
#[unsafe(no_mangle)]
pub extern "C" fn nifforan_status_text(status: u32) -> StatusText
    ensures { EndsWithZero result }
{
    nifforan_handle::status_text(status)
}

/// Opens a map without pairs at a closed handle. With any status but `OK` the handle stays as it
/// is: `OPEN` if it has a map, else `BAD_SIZE` if the settings have another size than here, else
/// that of the first setting out of its range, else `NO_MEMORY`.
#[unsafe(no_mangle)]
pub extern "C" fn nifforan_create(alloc: Global, map: &mut Handle, settings: &Settings) -> u32
    ensures { Creates settings.now result map.old.held map.new.held }
{
    map.create(alloc, settings)
}

/// Opens a map with the pairs, whose keys have to rise, at a closed handle. With any status but `OK`
/// the handle stays as it was: those of `nifforan_create`, `UNSORTED` if a key isn't above the one
/// before, or a fault. The count is that of the pairs, or with `UNSORTED` of those that rise.
#[unsafe(no_mangle)]
pub extern "C" fn nifforan_from_sorted(
    alloc: Global,
    map: &mut Handle,
    settings: &Settings,
    pairs: &[Pair],
) -> Filled
    ensures { OpensSorted settings.now (are_pairs pairs.now) result map.old.held map.new.held }
{
    map.from_sorted(alloc, settings, pairs)
}

/// Returns the number of pairs.
#[unsafe(no_mangle)]
pub extern "C" fn nifforan_pairs(alloc: Global, map: &mut Handle) -> Count
    ensures closed { (map_in map.old.held ≡ None) ↔ (result.status ≡ CLOSED) }
    ensures open { (map_in map.old.held ≢ None) ↔ (result.status ≡ OK) }
    ensures pairs { result.pairs ≡ length (pairs_in map.old.held) }
    ensures unchanged { map.new.held ≡ map.old.held }
{
    map.pairs(alloc)
}

/// Returns the value of the key, if it has one. Takes no memory.
#[unsafe(no_mangle)]
pub extern "C" fn nifforan_get(alloc: Global, map: &mut Handle, key: u64) -> Reply
    ensures closed { (map_in map.old.held ≡ None) ↔ (result.status ≡ CLOSED) }
    ensures open { (map_in map.old.held ≢ None) ↔ (result.status ≡ OK) }
    ensures value { had result ≡ at key (pairs_in map.old.held) }
    ensures zero { IsZeroWithout result }
    ensures care { result.care ≡ OK }
    ensures unchanged { map.new.held ≡ map.old.held }
{
    map.get(alloc, key)
}

/// Returns the pair with the least key, if there is any. Takes no memory.
#[unsafe(no_mangle)]
pub extern "C" fn nifforan_first(alloc: Global, map: &mut Handle) -> Found
    ensures first { Finds (first_entry (pairs_in map.old.held)) result map.old.held }
    ensures unchanged { map.new.held ≡ map.old.held }
{
    map.first(alloc)
}

/// Returns the pair with the greatest key, if there is any. Takes no memory.
#[unsafe(no_mangle)]
pub extern "C" fn nifforan_last(alloc: Global, map: &mut Handle) -> Found
    ensures last { Finds (last_entry (pairs_in map.old.held)) result map.old.held }
    ensures unchanged { map.new.held ≡ map.old.held }
{
    map.last(alloc)
}

/// Returns the pair with the least key at or above the key, if there is one. Takes no memory.
#[unsafe(no_mangle)]
pub extern "C" fn nifforan_next_at(alloc: Global, map: &mut Handle, key: u64) -> Found
    ensures next { Finds (first_from key (pairs_in map.old.held)) result map.old.held }
    ensures unchanged { map.new.held ≡ map.old.held }
{
    map.next_at(alloc, key)
}

/// Returns the pair with the greatest key at or below the key, if there is one. Takes no memory.
#[unsafe(no_mangle)]
pub extern "C" fn nifforan_previous_at(alloc: Global, map: &mut Handle, key: u64) -> Found
    ensures previous { Finds (last_upto key (pairs_in map.old.held)) result map.old.held }
    ensures unchanged { map.new.held ≡ map.old.held }
{
    map.previous_at(alloc, key)
}

/// Reads the pairs from the low on and below the high, in the order of their keys, until the room is
/// full or none is left, and returns the key of the next one. Takes no memory.
#[unsafe(no_mangle)]
pub extern "C" fn nifforan_read(
    alloc: Global,
    map: &mut Handle,
    low: u64,
    high: High,
    pairs: &mut [Pair],
) -> Read
    ensures closed { (map_in map.old.held ≡ None) ↔ (result.status ≡ CLOSED) }
    ensures open { (map_in map.old.held ≢ None) ↔ (result.status ≡ OK) }
    ensures reads { ReadsInto (pairs_between low high map.old.held) result pairs.old pairs.new }
    ensures unchanged { map.new.held ≡ map.old.held }
{
    map.read(alloc, low, high, pairs)
}

/// Reads the same pairs backwards, from the greatest key down, until the room is full or none is
/// left, and returns the key of the next one. Takes no memory.
#[unsafe(no_mangle)]
pub extern "C" fn nifforan_read_back(
    alloc: Global,
    map: &mut Handle,
    low: u64,
    high: High,
    pairs: &mut [Pair],
) -> Read
    ensures closed { (map_in map.old.held ≡ None) ↔ (result.status ≡ CLOSED) }
    ensures open { (map_in map.old.held ≢ None) ↔ (result.status ≡ OK) }
    ensures reads { ReadsInto (reverse (pairs_between low high map.old.held)) result
        pairs.old pairs.new }
    ensures unchanged { map.new.held ≡ map.old.held }
{
    map.read_back(alloc, low, high, pairs)
}

/// Inserts the pair, unless the key has a value: then it keeps that, and the reply has it.
#[unsafe(no_mangle)]
pub extern "C" fn nifforan_put(alloc: Global, map: &mut Handle, key: u64, value: u64) -> Reply
    ensures { Writes (Puts key value) result map.old.held map.new.held }
{
    map.put(alloc, key, value)
}

/// Sets the key to the value. The reply has the value before it, if there was one.
#[unsafe(no_mangle)]
pub extern "C" fn nifforan_set(alloc: Global, map: &mut Handle, key: u64, value: u64) -> Reply
    ensures { Writes (Sets key value) result map.old.held map.new.held }
{
    map.set(alloc, key, value)
}

/// Deletes the key, if it has a value. The reply has that value.
#[unsafe(no_mangle)]
pub extern "C" fn nifforan_delete(alloc: Global, map: &mut Handle, key: u64) -> Reply
    ensures { Writes (Deletes key) result map.old.held map.new.held }
{
    map.delete(alloc, key)
}

/// Sets the key to the new value, or deletes it where there is none, if it has the expected value, or
/// none. The reply has the value that it had: it was set if that is what was expected.
#[unsafe(no_mangle)]
pub extern "C" fn nifforan_compare_and_set(
    alloc: Global,
    map: &mut Handle,
    key: u64,
    expected: &Optional,
    value: &Optional,
) -> Reply
    ensures { Writes (SetsIfExpected key (value_of expected.now) (value_of value.now)) result
        map.old.held map.new.held }
{
    map.compare_and_set(alloc, key, expected, value)
}

/// Removes the pair with the least key, if there is any. The answer has it.
#[unsafe(no_mangle)]
pub extern "C" fn nifforan_pop_first(alloc: Global, map: &mut Handle) -> Popped
    ensures { Pops PopsFirst result map.old.held map.new.held }
{
    map.pop_first(alloc)
}

/// Removes the pair with the greatest key, if there is any. The answer has it.
#[unsafe(no_mangle)]
pub extern "C" fn nifforan_pop_last(alloc: Global, map: &mut Handle) -> Popped
    ensures { Pops PopsLast result map.old.held map.new.held }
{
    map.pop_last(alloc)
}

/// Sets the key of each pair to its value, one after the other: of pairs with the same key the last
/// one stays. If a fault ends it before, the first ones are set, and the answer has their number.
#[unsafe(no_mangle)]
pub extern "C" fn nifforan_extend(alloc: Global, map: &mut Handle, pairs: &[Pair]) -> Filled
    ensures { Extends (are_pairs pairs.now) result map.old.held map.new.held }
{
    map.extend(alloc, pairs)
}

/// Deletes the keys from the low on and below the high, and returns how many it deleted. If a fault
/// ends it before, it has deleted some of them, and no others.
#[unsafe(no_mangle)]
pub extern "C" fn nifforan_clear(alloc: Global, map: &mut Handle, low: u64, high: High) -> Cleared
    ensures { ClearsHeld low (end_at high) result map.old.held map.new.held }
{
    map.clear(alloc, low, high)
}

/// Takes memory ahead for pages enough for that many pairs more. With any status but `OK` all stays as
/// it is: `CLOSED`, `FROZEN`, `TABLE_FULL` if the map may have too few pages, or `NO_MEMORY`.
#[unsafe(no_mangle)]
pub extern "C" fn nifforan_reserve(alloc: Global, map: &mut Handle, pairs: u64) -> u32
    ensures { Reserves pairs result map.old.held map.new.held }
{
    map.reserve(alloc, pairs)
}

/// Makes the map anew, with no more pages than its pairs want. With any status but `OK` all stays as
/// it is: `CLOSED`, `FROZEN`, or a fault.
#[unsafe(no_mangle)]
pub extern "C" fn nifforan_shrink(alloc: Global, map: &mut Handle) -> u32
    ensures { Shrinks result map.old.held map.new.held }
{
    map.shrink(alloc)
}

/// Freezes the map: from now on no call changes it, and `nifforan_share` opens more handles on it.
/// With any status but `OK` all stays as it is: `CLOSED`, `FROZEN` if it is frozen already, or
/// `NO_MEMORY`.
#[unsafe(no_mangle)]
pub extern "C" fn nifforan_freeze(alloc: Global, map: &mut Handle) -> u32
    ensures { Freezes result map.old.held map.new.held }
{
    map.freeze(alloc)
}

/// Opens another handle, which is closed, on the same frozen map, for another thread say. With any
/// status but `OK` it stays closed: `OPEN` if it has a map, else `CLOSED` if this one has none,
/// `NOT_FROZEN` if its map isn't frozen, or `NO_MEMORY`.
#[unsafe(no_mangle)]
pub extern "C" fn nifforan_share(alloc: Global, map: &mut Handle, other: &mut Handle) -> u32
    ensures { Shares result map.old.held map.new.held other.old.held other.new.held }
{
    map.share(alloc, other)
}

/// Takes the frozen map back, to change it again: this handle must be the last that has it. With
/// any status but `OK` it stays frozen: `CLOSED`, `NOT_FROZEN`, or `SHARED` if another handle has
/// the map too.
#[unsafe(no_mangle)]
pub extern "C" fn nifforan_thaw(alloc: Global, map: &mut Handle) -> u32
    ensures { Thaws result map.old.held map.new.held }
{
    map.thaw(alloc)
}

/// Closes the handle, and frees its map, unless other handles have it too. A closed handle stays
/// closed.
#[unsafe(no_mangle)]
pub extern "C" fn nifforan_close(alloc: Global, map: &mut Handle)
    ensures { map.new.held ≡ Closed }
{
    map.close(alloc);
}
