//! Leaves, lent for reading in the order of the keys.

ghost use Rattle.std.specs.Prelude.{◌≡◌, ◌↔◌, ◌+◌, ◌^◌, ◌++◌, ◌<◌, ◌≤◌, true, false, None, IsTrue};
ghost use Rattle.std.specs.Prelude.{IsSome, IfSome, length, take, vec_capacity};
ghost use Rattle.bw_keys.specs.Ranges.{end_of, key_count};
ghost use Rattle.bw_chain.specs.Leaves.{ReadsLeaf};
ghost use Rattle.bw_chain.specs.Passing.Heads.{BeginsWith, EndsWith};
ghost use Rattle.bw_delta.specs.Entries.{below, first_from, from, last_upto};
ghost use Rattle.bw_delta.specs.Slices.{list_of};
ghost use Rattle.bw_step.specs.Stages.{is_in_row};
ghost use Rattle.bw_law.specs.Laws.{IsLeafOf};
ghost use Rattle.bw_law.specs.Tables.{slot_at};
ghost use Rattle.bw_table.specs.Orders.{ArePairsWithin, IsRightSibling, leaf_at};
ghost use Rattle.bw_table.specs.Orders.{IsEndOfLeaf, IsReadable};

use crate::slot::Slot;
use crate::table::Table;
use bw_chain::{has_pair_from, pairs_from, pairs_upto};
use bw_delta::EntrySlice;
use bw_keys::{Fence, Key, Pid};
use std::alloc::Allocator;
use std::marker::Model;

/// A leaf of a table: its page, its range, and its pairs, which lie in the table.
#[derive(Drop)]
pub struct LeafRef<'t, A: Allocator> {
    pid: Pid,
    slot: &'t Slot<A>,
}

impl<'t, A: Allocator> Model for LeafRef<'t, A> {
    ghost use Rattle.std.specs.Prelude.{◌≡◌, true};
    ghost use Rattle.bw_step.specs.Stages.{is_in_row};
    ghost use Rattle.bw_law.specs.Slots.{pairs_in};
    ghost use Rattle.bw_table.specs.SlotFacts.{HasSoundChain};
    ghost use Rattle.bw_table.specs.Orders.{LeafValue, leaf_code};

    ghost Value = { LeafValue };

    ghost coded = { leaf_code };

    ghost view = { λ l. record {
      pid = l.pid;
      low = l.slot.now.low;
      high = l.slot.now.high;
      pairs = pairs_in l.slot.now;
    } };

    ghost invariant = { λ l. (is_in_row l.slot.now.stage ≡ true) × HasSoundChain l.slot.now };
}

impl<'t, A: Allocator + Copy> LeafRef<'t, A> {
    /// Returns the page.
    #[inline(always)]
    pub fn pid(&self) -> Pid
        ensures { result ≡ self.now.pid }
    {
        self.pid
    }

    /// Returns the least key that the leaf may have.
    #[inline(always)]
    pub fn low(&self) -> Key
        ensures { result ≡ self.now.low }
    {
        let slot = self.slot;
        slot.low
    }

    /// Returns the end of the keys that the leaf may have.
    #[inline(always)]
    pub fn high(&self) -> Fence
        ensures { result ≡ self.now.high }
    {
        let slot = self.slot;
        slot.high()
    }

    /// Returns the pair with the least key at or above the key, if the leaf has one. It takes no
    /// memory.
    #[inline(always)]
    pub fn next_at(&self, key: Key) -> Option<(Key, u64)>
        ensures { result ≡ first_from key self.now.pairs }
    {
        self.slot.next_at(key)
    }

    /// Reports whether the leaf has a pair at the key or past it. It takes no memory.
    #[inline(always)]
    pub fn has_pair_from(&self, key: Key) -> bool
        ensures { IsTrue result ↔ IsSome (first_from key self.now.pairs) }
    {
        let slot = self.slot;
        has_pair_from(slot.own_chain(), key)
    }

    /// Returns pairs of the leaf from the key on, as they lie side by side: all of them, unless a
    /// record of the leaf names one of their keys; then those before the least such key, which may be
    /// none. It takes no memory.
    #[inline(always)]
    pub fn pairs_from(&self, key: Key) -> EntrySlice<'t, u64>
        ensures { BeginsWith (from key self.now.pairs) (list_of result) }
    {
        let slot = self.slot;
        pairs_from(slot.own_chain(), key)
    }

    /// Returns pairs of the leaf up to the key, as they lie side by side: all of them, unless a
    /// record of the leaf names one of their keys; then those after the greatest such key, which may
    /// be none. It takes no memory.
    #[inline(always)]
    pub fn pairs_upto(&self, key: Key) -> EntrySlice<'t, u64>
        ensures { EndsWith (below (key + 1) self.now.pairs) (list_of result) }
    {
        let slot = self.slot;
        pairs_upto(slot.own_chain(), key)
    }

    /// Returns the pair with the greatest key at or below the key, if the leaf has one. It takes no
    /// memory.
    #[inline(always)]
    pub fn previous_at(&self, key: Key) -> Option<(Key, u64)>
        ensures { result ≡ last_upto key self.now.pairs }
    {
        self.slot.previous_at(key)
    }
}

impl<A: Allocator + Copy> Table<A> {
    /// Lends the leaf whose range holds the key. It takes no memory.
    #[inline(always)]
    pub fn leaf_of(&self, key: Key) -> LeafRef<'_, A>
        ensures page { IsLeafOf self.now key result.pid.0 }
        ensures lent { result ≡ leaf_at self.now result.pid }
        ensures low { result.low ≤ key }
        ensures high { key < end_of result.high }
        ensures pairs { ArePairsWithin self.now result.low (end_of result.high) result.pairs }
    {
        let pid = self.page_for(key);
        LeafRef {
            pid,
            slot: self.slot_in_row(pid),
        }
    }

    /// Appends the pairs of the key's leaf that lie from the key on and below the high to the list,
    /// the first `limit` of them, and returns where the leaf ends. Where a record stands on the leaf,
    /// or the list has no room for the pairs, it appends nothing, and returns none. It takes no memory.
    #[inline(never)]
    pub fn read_leaf(
        &self,
        key: Key,
        high: Fence,
        limit: usize,
        list: &mut Vec<(Key, u64)>,
    ) -> Option<Fence>
        ensures read { ReadsLeaf (ArePairsWithin self.now) key high limit
            result list.old.items list.new.items }
        ensures end { IfSome result (IsEndOfLeaf self.now key) }
        ensures answered { IsReadable self.now key (end_of high) limit
            (vec_capacity list.old) (length list.old.items) → IsSome result }
    {
        let slot = self.slot_in_row(self.page_for(key));
        let pairs = slot.pairs_within(key, high)?;
        if append_first(pairs, limit, list) {
            Some(slot.high())
        } else {
            None
        }
    }

    /// Lends the leaf on the right of a leaf, whose range begins where that one's ends; none if that
    /// one is the last. It is the page that the leaf's side link names, so no search leads there
    /// (Lehman and Yao, "Efficient Locking for Concurrent Operations on B-Trees", TODS 1981). It
    /// takes no memory.
    #[inline(always)]
    pub fn right_sibling(&self, pid: Pid) -> Option<LeafRef<'_, A>>
        requires in_row { is_in_row (slot_at self.now pid.0).stage ≡ true }
        requires leaf { (slot_at self.now pid.0).level ≡ 0 }
        ensures sibling { IfSome result (IsRightSibling self.now pid.0) }
        ensures last { (result ≡ None) ↔ (end_of (slot_at self.now pid.0).high ≡ key_count) }
    {
        let leaf = self.slot_in_row(pid);
        let right = leaf.right()?;
        Some(LeafRef {
            pid: right,
            slot: self.slot_in_row(right),
        })
    }
}

/// Appends the first of the pairs to the list, `limit` at most, and returns whether it had room for
/// them.
#[inline(always)]
fn append_first(pairs: EntrySlice<'_, u64>, limit: usize, list: &mut Vec<(Key, u64)>) -> bool
    ensures appended { IsTrue result
        → list.new.items ≡ list.old.items ++ take limit (list_of pairs.entry) }
    ensures unchanged { result ≡ false → list.new.items ≡ list.old.items }
    ensures counted { length (list_of pairs.entry) < 2 ^ 64 }
    ensures room { length list.old.items + length (take limit (list_of pairs.entry))
        ≤ vec_capacity list.old → IsTrue result }
{
    let count = pairs.len().min(limit);
    if list.capacity() - list.len() < count {
        return false;
    }
    for place in 0..count {
        list.push_reserved(pairs.entry(place));
    }
    true
}
