//! The calls for C that look at a map, frozen or not, and change nothing.

ghost use Rattle.std.specs.Prelude.{◌≡◌, ◌≢◌, ◌↔◌, None, length, reverse};
ghost use Rattle.bw_delta.specs.Entries.{at, first_entry, last_entry, first_from, last_upto};
ghost use Rattle.nifforan_handle.specs.Answers.{had, IsZeroWithout};
ghost use Rattle.nifforan_handle.specs.Calls.{Finds, ReadsInto};
ghost use Rattle.nifforan_handle.specs.Held.{map_in, pairs_in, free_in, pairs_between};
ghost use Rattle.nifforan_handle.specs.declared.status.TheConstants.{CLOSED, OK};

use crate::answer::{Count, Found, Pair, Read, Reply};
use crate::handle::Handle;
use crate::high::High;
use crate::read;
use crate::status::CLOSED;
use std::alloc::Global;

impl Handle {
    /// Returns the number of pairs, and how many more pages the map has room for.
    pub fn pairs(&mut self, alloc: Global) -> Count
        ensures closed { (map_in self.old.held ≡ None) ↔ (result.status ≡ CLOSED) }
        ensures open { (map_in self.old.held ≢ None) ↔ (result.status ≡ OK) }
        ensures pairs { result.pairs ≡ length (pairs_in self.old.held) }
        ensures free { result.free_pages ≡ free_in self.old.held }
        ensures unchanged { self.new.held ≡ self.old.held }
    {
        let Some(held) = self.take(alloc) else {
            return Count::closed();
        };
        let count = match held.map() {
            Some(map) => Count::of(map.len(), map.free_pages() as u64),
            None => Count::closed(),
        };
        self.hold(alloc, held);
        count
    }

    /// Returns the value of the key, if it has one. Takes no memory.
    pub fn get(&mut self, alloc: Global, key: u64) -> Reply
        ensures closed { (map_in self.old.held ≡ None) ↔ (result.status ≡ CLOSED) }
        ensures open { (map_in self.old.held ≢ None) ↔ (result.status ≡ OK) }
        ensures value { had result ≡ at key (pairs_in self.old.held) }
        ensures zero { IsZeroWithout result }
        ensures care { result.care ≡ OK }
        ensures unchanged { self.new.held ≡ self.old.held }
    {
        let Some(held) = self.take(alloc) else {
            return Reply::without(CLOSED);
        };
        let reply = match held.map() {
            Some(map) => Reply::found(map.get(key), None),
            None => Reply::without(CLOSED),
        };
        self.hold(alloc, held);
        reply
    }

    /// Returns the pair with the least key, if there is any. Takes no memory.
    pub fn first(&mut self, alloc: Global) -> Found
        ensures first { Finds (first_entry (pairs_in self.old.held)) result self.old.held }
        ensures unchanged { self.new.held ≡ self.old.held }
    {
        let Some(held) = self.take(alloc) else {
            return Found::closed();
        };
        let found = match held.map() {
            Some(map) => Found::of(map.first()),
            None => Found::closed(),
        };
        self.hold(alloc, held);
        found
    }

    /// Returns the pair with the greatest key, if there is any. Takes no memory.
    pub fn last(&mut self, alloc: Global) -> Found
        ensures last { Finds (last_entry (pairs_in self.old.held)) result self.old.held }
        ensures unchanged { self.new.held ≡ self.old.held }
    {
        let Some(held) = self.take(alloc) else {
            return Found::closed();
        };
        let found = match held.map() {
            Some(map) => Found::of(map.last()),
            None => Found::closed(),
        };
        self.hold(alloc, held);
        found
    }

    /// Returns the pair with the least key at or above the key, if there is one. Takes no memory.
    pub fn next_at(&mut self, alloc: Global, key: u64) -> Found
        ensures next { Finds (first_from key (pairs_in self.old.held)) result self.old.held }
        ensures unchanged { self.new.held ≡ self.old.held }
    {
        let Some(held) = self.take(alloc) else {
            return Found::closed();
        };
        let found = match held.map() {
            Some(map) => Found::of(map.next_at(key)),
            None => Found::closed(),
        };
        self.hold(alloc, held);
        found
    }

    /// Returns the pair with the greatest key at or below the key, if there is one. Takes no memory.
    pub fn previous_at(&mut self, alloc: Global, key: u64) -> Found
        ensures previous { Finds (last_upto key (pairs_in self.old.held)) result self.old.held }
        ensures unchanged { self.new.held ≡ self.old.held }
    {
        let Some(held) = self.take(alloc) else {
            return Found::closed();
        };
        let found = match held.map() {
            Some(map) => Found::of(map.previous_at(key)),
            None => Found::closed(),
        };
        self.hold(alloc, held);
        found
    }

    /// Reads the pairs from the low on and below the high, in the order of their keys, until the
    /// room is full or none is left, and returns the key of the next one. Takes no memory.
    pub fn read(&mut self, alloc: Global, low: u64, high: High, pairs: &mut [Pair]) -> Read
        ensures closed { (map_in self.old.held ≡ None) ↔ (result.status ≡ CLOSED) }
        ensures open { (map_in self.old.held ≢ None) ↔ (result.status ≡ OK) }
        ensures reads { ReadsInto (pairs_between low high self.old.held) result
            pairs.old pairs.new }
        ensures unchanged { self.new.held ≡ self.old.held }
    {
        let Some(held) = self.take(alloc) else {
            return Read::closed();
        };
        let read = match held.map() {
            Some(map) => read::forwards(map, low, high.fence(), pairs),
            None => Read::closed(),
        };
        self.hold(alloc, held);
        read
    }

    /// Reads the same pairs backwards, from the greatest key down, until the room is full or none is
    /// left, and returns the key of the next one. Takes no memory.
    pub fn read_back(&mut self, alloc: Global, low: u64, high: High, pairs: &mut [Pair]) -> Read
        ensures closed { (map_in self.old.held ≡ None) ↔ (result.status ≡ CLOSED) }
        ensures open { (map_in self.old.held ≢ None) ↔ (result.status ≡ OK) }
        ensures reads { ReadsInto (reverse (pairs_between low high self.old.held)) result
            pairs.old pairs.new }
        ensures unchanged { self.new.held ≡ self.old.held }
    {
        let Some(held) = self.take(alloc) else {
            return Read::closed();
        };
        let read = match held.map() {
            Some(map) => read::backwards(map, low, high.fence(), pairs),
            None => Read::closed(),
        };
        self.hold(alloc, held);
        read
    }
}
