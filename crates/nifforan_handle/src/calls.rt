//! The calls for C that change a map, or what a handle holds.

ghost use Rattle.std.specs.Prelude.{◌≡◌, ◌≢◌, ◌↔◌, None, IsTrue};
ghost use Rattle.nifforan.specs.Calls.{Puts, Sets, Deletes, PopsFirst, PopsLast};
ghost use Rattle.nifforan_handle.specs.Answers.{value_of};
ghost use Rattle.nifforan_handle.specs.Calls.{Creates, Writes, ClearsHeld, Reserves, Shrinks};
ghost use Rattle.nifforan_handle.specs.Calls.{SetsIfExpected, Pops, Extends};
ghost use Rattle.nifforan_handle.specs.Frozen.{Freezes, Shares, Thaws};
ghost use Rattle.nifforan_handle.specs.Held.{end_at, map_in};
ghost use Rattle.nifforan_handle.specs.Reading.{are_pairs};
ghost use Rattle.nifforan_handle.specs.declared.held.Held.TheVariants.{Closed};
ghost use Rattle.nifforan_handle.specs.declared.status.TheConstants.{NO_MEMORY, OK};

use crate::answer::{Cleared, Pair, Reply};
use crate::filled::Filled;
use crate::handle::Handle;
use crate::held::Held;
use crate::high::High;
use crate::optional::Optional;
use crate::popped::Popped;
use crate::settings::{SETTINGS_SIZE, Settings};
use crate::status::{self, BAD_SIZE, CLOSED, NO_MEMORY, OK, OPEN};
use nifforan::{Map, NewFault};
use std::alloc::Global;

impl Handle {
    /// Opens an empty map at a closed handle. With any status but `OK` the handle stays as it is:
    /// `OPEN` if it has a map, else `BAD_SIZE` if the settings have another size than here, else
    /// that of the first setting out of its range, else `NO_MEMORY`.
    pub fn create(&mut self, alloc: Global, settings: &Settings) -> u32
        ensures { Creates settings.now result self.old.held self.new.held }
    {
        if self.is_open(alloc) {
            return OPEN;
        }
        if settings.size != SETTINGS_SIZE {
            return BAD_SIZE;
        }
        let made = match Map::new(alloc, alloc, settings.config()) {
            Ok(made) => made,
            Err(NewFault::BadConfig(bad)) => return status::of_field(bad.0),
            Err(NewFault::NoMemory) => return NO_MEMORY,
        };
        self.open(alloc, Held::Own(made))
    }

    /// Returns whether the handle has a map.
    pub(crate) fn is_open(&mut self, alloc: Global) -> bool
        ensures open { IsTrue result ↔ (map_in self.old.held ≢ None) }
        ensures unchanged { self.new.held ≡ self.old.held }
    {
        let Some(held) = self.take(alloc) else {
            return false;
        };
        let is_open = held.map().is_some();
        self.hold(alloc, held);
        is_open
    }

    /// Holds this from now on, unless memory is short.
    pub(crate) fn open(&mut self, alloc: Global, held: Held) -> u32
        ensures open { result ≡ OK → self.new.held ≡ held }
        ensures memory { result ≢ OK → result ≡ NO_MEMORY }
        ensures unchanged { result ≢ OK → self.new.held ≡ self.old.held }
    {
        match Box::new(alloc, held) {
            Ok(held) => {
                self.hold(alloc, held);
                OK
            }
            Err(_) => NO_MEMORY,
        }
    }

    /// Inserts the pair, unless the key has a value, which it then keeps and the reply has.
    pub fn put(&mut self, alloc: Global, key: u64, value: u64) -> Reply
        ensures { Writes (Puts key value) result self.old.held self.new.held }
    {
        let Some(mut held) = self.take(alloc) else {
            return Reply::without(CLOSED);
        };
        let reply = held.put(key, value);
        self.hold(alloc, held);
        reply
    }

    /// Sets the key to the value. The reply has the old value, if there was one.
    pub fn set(&mut self, alloc: Global, key: u64, value: u64) -> Reply
        ensures { Writes (Sets key value) result self.old.held self.new.held }
    {
        let Some(mut held) = self.take(alloc) else {
            return Reply::without(CLOSED);
        };
        let reply = held.set(key, value);
        self.hold(alloc, held);
        reply
    }

    /// Deletes the key, if it has a value. The reply has that value.
    pub fn delete(&mut self, alloc: Global, key: u64) -> Reply
        ensures { Writes (Deletes key) result self.old.held self.new.held }
    {
        let Some(mut held) = self.take(alloc) else {
            return Reply::without(CLOSED);
        };
        let reply = held.delete(key);
        self.hold(alloc, held);
        reply
    }

    /// If the key has the expected value, or no value if none is expected, sets it to the new
    /// value, or deletes it if there is none. The reply has the old value: if that is the expected
    /// one, the key was changed.
    pub fn compare_and_set(
        &mut self,
        alloc: Global,
        key: u64,
        expected: &Optional,
        new: &Optional,
    ) -> Reply
        ensures { Writes (SetsIfExpected key (value_of expected.now) (value_of new.now)) result
            self.old.held self.new.held }
    {
        let Some(mut held) = self.take(alloc) else {
            return Reply::without(CLOSED);
        };
        let reply = held.compare_and_set(key, expected.get(), new.get());
        self.hold(alloc, held);
        reply
    }

    /// Removes the pair with the least key, if there is any. The answer has it.
    pub fn pop_first(&mut self, alloc: Global) -> Popped
        ensures { Pops PopsFirst result self.old.held self.new.held }
    {
        let Some(mut held) = self.take(alloc) else {
            return Popped::without(CLOSED);
        };
        let popped = held.pop_first();
        self.hold(alloc, held);
        popped
    }

    /// Removes the pair with the greatest key, if there is any. The answer has it.
    pub fn pop_last(&mut self, alloc: Global) -> Popped
        ensures { Pops PopsLast result self.old.held self.new.held }
    {
        let Some(mut held) = self.take(alloc) else {
            return Popped::without(CLOSED);
        };
        let popped = held.pop_last();
        self.hold(alloc, held);
        popped
    }

    /// Sets the key of each pair to its value, one after the other, so of pairs with the same key
    /// the last one stays. If a fault ends the call early, the first ones are set, and the answer
    /// has their number.
    pub fn extend(&mut self, alloc: Global, pairs: &[Pair]) -> Filled
        ensures { Extends (are_pairs pairs.now) result self.old.held self.new.held }
    {
        let Some(mut held) = self.take(alloc) else {
            return Filled::ended(CLOSED, 0);
        };
        let filled = held.extend(pairs);
        self.hold(alloc, held);
        filled
    }

    /// Deletes the keys from the low on and below the high, and returns how many it deleted. If a
    /// fault ends the call early, some of these keys are deleted, and no others.
    pub fn clear(&mut self, alloc: Global, low: u64, high: High) -> Cleared
        ensures { ClearsHeld low (end_at high) result self.old.held self.new.held }
    {
        let Some(mut held) = self.take(alloc) else {
            return Cleared::without(CLOSED);
        };
        let cleared = held.clear(low, high.fence());
        self.hold(alloc, held);
        cleared
    }

    /// Takes memory ahead for the pages that so many more pairs may need. With any status but `OK`
    /// nothing changes: `CLOSED`, `FROZEN`, `TABLE_FULL` if the pages that the map may have can be
    /// too few, or `NO_MEMORY`.
    pub fn reserve(&mut self, alloc: Global, pairs: u64) -> u32
        ensures { Reserves pairs result self.old.held self.new.held }
    {
        let Some(mut held) = self.take(alloc) else {
            return CLOSED;
        };
        let status = held.reserve(pairs);
        self.hold(alloc, held);
        status
    }

    /// Rebuilds the map with no more pages than its pairs need. With any status but `OK` nothing
    /// changes: `CLOSED`, `FROZEN`, or a fault.
    pub fn shrink(&mut self, alloc: Global) -> u32
        ensures { Shrinks result self.old.held self.new.held }
    {
        let Some(mut held) = self.take(alloc) else {
            return CLOSED;
        };
        let status = held.shrink();
        self.hold(alloc, held);
        status
    }

    /// Freezes the map: from now on no call changes it, and `share` opens more handles on it. With
    /// any status but `OK` nothing changes: `CLOSED`, `FROZEN` if it is frozen already, or
    /// `NO_MEMORY`.
    pub fn freeze(&mut self, alloc: Global) -> u32
        ensures { Freezes result self.old.held self.new.held }
    {
        let Some(mut held) = self.take(alloc) else {
            return CLOSED;
        };
        let status = held.freeze(alloc);
        self.hold(alloc, held);
        status
    }

    /// Opens another handle, which is closed, on the same frozen map, such as for another thread.
    /// With any status but `OK` it stays closed: `OPEN` if it has a map, else `CLOSED` if this one
    /// has none, `NOT_FROZEN` if its map isn't frozen, or `NO_MEMORY`.
    pub fn share(&mut self, alloc: Global, other: &mut Handle) -> u32
        ensures { Shares result self.old.held self.new.held other.old.held other.new.held }
    {
        if other.is_open(alloc) {
            return OPEN;
        }
        let Some(held) = self.take(alloc) else {
            return CLOSED;
        };
        let shared = held.share();
        self.hold(alloc, held);
        match shared {
            Ok(shared) => other.open(alloc, shared),
            Err(status) => status,
        }
    }

    /// Takes the frozen map back, to change it again: this handle must be the last that has it.
    /// With any status but `OK` it stays frozen: `CLOSED`, `NOT_FROZEN`, or `SHARED` if another
    /// handle has the map too.
    pub fn thaw(&mut self, alloc: Global) -> u32
        ensures { Thaws result self.old.held self.new.held }
    {
        let Some(mut held) = self.take(alloc) else {
            return CLOSED;
        };
        let status = held.thaw();
        self.hold(alloc, held);
        status
    }

    /// Closes the handle, and frees its map, unless other handles have it too. A closed handle stays
    /// closed.
    pub fn close(&mut self, alloc: Global)
        ensures { self.new.held ≡ Closed }
    {
        drop(self.take(alloc));
    }
}
