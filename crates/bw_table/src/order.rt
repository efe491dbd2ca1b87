//! The map's first and last pair, and the ones at a key or next to it, found leaf by leaf.

ghost use Rattle.std.specs.Prelude.{◌+◌, IfSome, IfNone};
ghost use Rattle.bw_keys.specs.Ranges.{key_count};
ghost use Rattle.bw_table.specs.Orders.{HasNoKeyWithin, IsNextAt, IsPreviousAt, last_key};

use crate::table::Table;
use bw_keys::{Fence, Key};
use std::alloc::Allocator;

impl<A: Allocator + Copy> Table<A> {
    /// Returns the pair with the least key, if the map has any. It takes no memory.
    pub fn first(&self) -> Option<(Key, u64)>
        ensures first { IfSome result (IsNextAt self.now 0) }
        ensures none { IfNone result (HasNoKeyWithin self.now 0 key_count) }
    {
        self.next_at(0)
    }

    /// Returns the pair with the greatest key, if the map has any. It takes no memory.
    pub fn last(&self) -> Option<(Key, u64)>
        ensures last { IfSome result (IsPreviousAt self.now last_key) }
        ensures none { IfNone result (HasNoKeyWithin self.now 0 key_count) }
    {
        self.previous_at(Key::MAX)
    }

    /// Returns the pair with the least key at or above the key, if the map has one. It takes no
    /// memory, and a search for each empty leaf on the way.
    pub fn next_at(&self, key: Key) -> Option<(Key, u64)>
        ensures next { IfSome result (IsNextAt self.now key) }
        ensures none { IfNone result (HasNoKeyWithin self.now key key_count) }
    {
        let mut from = key;
        'leaves: loop {
            let leaf = self.leaf_of(from);
            if let Some(pair) = leaf.next_at(from) {
                return Some(pair);
            }
            match leaf.high() {
                Fence::Key(high) => from = high,
                Fence::Top => return None,
            }
        }
    }

    /// Returns the pair with the greatest key at or below the key, if the map has one. It takes no
    /// memory, and a search for each empty leaf on the way.
    pub fn previous_at(&self, key: Key) -> Option<(Key, u64)>
        ensures previous { IfSome result (IsPreviousAt self.now key) }
        ensures none { IfNone result (HasNoKeyWithin self.now 0 (key + 1)) }
    {
        let mut upto = key;
        'leaves: loop {
            let leaf = self.leaf_of(upto);
            if let Some(pair) = leaf.previous_at(upto) {
                return Some(pair);
            }
            match leaf.low().checked_sub(1) {
                Some(before) => upto = before,
                None => return None,
            }
        }
    }
}
