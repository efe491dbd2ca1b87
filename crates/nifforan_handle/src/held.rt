//! What a handle holds, and the calls on it.

ghost use Rattle.std.specs.Prelude.{◌≡◌, None, Some};
ghost use Rattle.std.specs.Option.{MatchOption};
ghost use Rattle.bw_keys.specs.Ranges.{end_of};
ghost use Rattle.nifforan.specs.Calls.{Puts, Sets, Deletes, PopsFirst, PopsLast};
ghost use Rattle.nifforan_handle.specs.Calls.{Writes, ClearsHeld, Reserves, Shrinks};
ghost use Rattle.nifforan_handle.specs.Calls.{SetsIfExpected, Pops, Extends};
ghost use Rattle.nifforan_handle.specs.Held.{map_in};
ghost use Rattle.nifforan_handle.specs.Reading.{are_pairs};

use crate::answer::{Cleared, Pair, Reply};
use crate::fill;
use crate::filled::Filled;
use crate::popped::Popped;
use crate::status::{self, CLOSED, FROZEN, NO_MEMORY, OK};
use bw_keys::{Fence, Key};
use nifforan::Map;
use std::alloc::Global;
use std::sync::Arc;

/// What a handle holds.
#[derive(Drop)]
pub enum Held {
    /// No map: the handle is closed.
    Closed,
    /// A map of its own.
    Own(Map<Global>),
    /// A map that no call changes, which other handles may hold too.
    Frozen(Arc<Map<Global>, Global>),
}

impl Held {
    /// Returns the map, if there is one.
    pub fn map(&self) -> Option<&Map<Global>>
        ensures { MatchOption result (map_in self.now ≡ None)
            (λ map. map_in self.now ≡ Some map.now) }
    {
        match self {
            Held::Closed => None,
            Held::Own(map) => Some(map),
            Held::Frozen(shared) => Some(&**shared),
        }
    }

    pub(crate) fn put(&mut self, key: Key, value: u64) -> Reply
        ensures { Writes (Puts key value) result self.old self.new }
    {
        match self {
            Held::Closed => Reply::without(CLOSED),
            Held::Own(map) => Reply::of(map.put(key, value)),
            Held::Frozen(_) => Reply::without(FROZEN),
        }
    }

    pub(crate) fn set(&mut self, key: Key, value: u64) -> Reply
        ensures { Writes (Sets key value) result self.old self.new }
    {
        match self {
            Held::Closed => Reply::without(CLOSED),
            Held::Own(map) => Reply::of(map.set(key, value)),
            Held::Frozen(_) => Reply::without(FROZEN),
        }
    }

    pub(crate) fn delete(&mut self, key: Key) -> Reply
        ensures { Writes (Deletes key) result self.old self.new }
    {
        match self {
            Held::Closed => Reply::without(CLOSED),
            Held::Own(map) => Reply::of(map.delete(key)),
            Held::Frozen(_) => Reply::without(FROZEN),
        }
    }

    pub(crate) fn compare_and_set(
        &mut self,
        key: Key,
        expected: Option<u64>,
        new: Option<u64>,
    ) -> Reply
        ensures { Writes (SetsIfExpected key expected new) result self.old self.new }
    {
        match self {
            Held::Closed => Reply::without(CLOSED),
            Held::Own(map) => Reply::of_compared(map.compare_and_set(key, expected, new), expected),
            Held::Frozen(_) => Reply::without(FROZEN),
        }
    }

    pub(crate) fn pop_first(&mut self) -> Popped
        ensures { Pops PopsFirst result self.old self.new }
    {
        match self {
            Held::Closed => Popped::without(CLOSED),
            Held::Own(map) => Popped::of(map.pop_first()),
            Held::Frozen(_) => Popped::without(FROZEN),
        }
    }

    pub(crate) fn pop_last(&mut self) -> Popped
        ensures { Pops PopsLast result self.old self.new }
    {
        match self {
            Held::Closed => Popped::without(CLOSED),
            Held::Own(map) => Popped::of(map.pop_last()),
            Held::Frozen(_) => Popped::without(FROZEN),
        }
    }

    pub(crate) fn extend(&mut self, pairs: &[Pair]) -> Filled
        ensures { Extends (are_pairs pairs.now) result self.old self.new }
    {
        match self {
            Held::Closed => Filled::ended(CLOSED, 0),
            Held::Own(map) => fill::set_each(map, pairs),
            Held::Frozen(_) => Filled::ended(FROZEN, 0),
        }
    }

    pub(crate) fn clear(&mut self, low: Key, high: Fence) -> Cleared
        ensures { ClearsHeld low (end_of high) result self.old self.new }
    {
        match self {
            Held::Closed => Cleared::without(CLOSED),
            Held::Own(map) => Cleared::of(map.clear(low, high)),
            Held::Frozen(_) => Cleared::without(FROZEN),
        }
    }

    pub(crate) fn reserve(&mut self, pairs: u64) -> u32
        ensures { Reserves pairs result self.old self.new }
    {
        match self {
            Held::Closed => CLOSED,
            Held::Own(map) => match map.reserve(pairs) {
                Ok(()) => OK,
                Err(refused) => status::of_fault(refused),
            },
            Held::Frozen(_) => FROZEN,
        }
    }

    pub(crate) fn shrink(&mut self) -> u32
        ensures { Shrinks result self.old self.new }
    {
        match self {
            Held::Closed => CLOSED,
            Held::Own(map) => match map.shrink_to_fit() {
                Ok(()) => OK,
                Err(fault) => status::of_fault(fault),
            },
            Held::Frozen(_) => FROZEN,
        }
    }
}
