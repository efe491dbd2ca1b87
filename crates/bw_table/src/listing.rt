//! The first pairs of the map in a range of keys, read along the leaf row.

ghost use Rattle.std.specs.Prelude.{◌≡◌, ◌↔◌, ◌+◌, ◌≤◌, ◌++◌, [], min, length, take, true, vec_capacity, IsTrue, IfOk, OnOk, OnErr};
ghost use Rattle.bw_keys.specs.Ranges.{key_count, end_of};
ghost use Rattle.bw_delta.specs.Entries.{from, below, rises};
ghost use Rattle.bw_step.specs.Stages.{is_in_row};
ghost use Rattle.bw_law.specs.Slots.{pairs_in};
ghost use Rattle.bw_law.specs.Tables.{pair_count};
ghost use Rattle.bw_table.specs.SlotFacts.{HasSoundChain};
ghost use Rattle.bw_table.specs.Gets.{IsListing, HasListing};

use crate::slot::Slot;
use crate::table::Table;
use bw_chain::append_first_pairs;
use bw_delta::NoMemory;
use bw_keys::{Fence, Key};
use std::alloc::Allocator;
use std::mem::replace;

impl<A: Allocator + Copy> Table<A> {
    /// Replaces the list by the first pairs of the map from the low on and below the high, in the
    /// order of their keys, and no more than the limit. Memory is taken first, where the list has no
    /// room for as many pairs as the map has or the limit allows; if it is refused, the list stays as
    /// it was.
    pub fn list_range(
        &self,
        low: Key,
        high: Fence,
        limit: usize,
        list: &mut Vec<(Key, u64)>,
    ) -> Result<(), NoMemory>
        ensures listed { OnOk result
            (IsListing self.now low (end_of high) limit list.new.items) }
        ensures unchanged { OnErr result (list.new ≡ list.old) }
    {
        let empty = emptied(list, self.pair_count().min(limit))?;
        *list = cut(self.fill(low, high, limit, empty), high);
        Ok(())
    }

    /// How many pairs the map has.
    fn pair_count(&self) -> usize
        ensures { result ≡ pair_count self.now.slots }
    {
        (self.book.inserted - self.book.removed) as usize
    }

    /// The list, which is empty and has room for them, with the pairs, and perhaps with others of the
    /// last leaf after them.
    fn fill(&self, low: Key, high: Fence, limit: usize, list: Vec<(Key, u64)>) -> Vec<(Key, u64)>
        requires empty { list.items ≡ [] }
        requires room { min (pair_count self.now.slots) limit ≤ vec_capacity list }
        ensures { HasListing self.now low (end_of high) limit result.items }
    {
        let mut listed = list;
        let mut next = Some(self.page_for(low));
        'leaves: while let Some(pid) = next {
            if listed.len() >= limit {
                return listed;
            }
            let slot = self.slot_in_row(pid);
            listed = slot.list_from(low, limit, listed);
            if slot.ends_past(high) {
                return listed;
            }
            next = slot.right();
        }
        listed
    }
}

/// The list without its pairs, if it has the room, and otherwise a new one that has it.
fn emptied(list: &mut Vec<(Key, u64)>, room: usize) -> Result<Vec<(Key, u64)>, NoMemory>
    ensures empty { IfOk result (λ list. list.items ≡ []) }
    ensures room { IfOk result (λ list. room ≤ vec_capacity list) }
    ensures unchanged { OnErr result (list.new ≡ list.old) }
{
    let alloc = *list.allocator();
    if list.capacity() < room {
        return Ok(Vec::with_capacity(alloc, room)?);
    }
    let mut taken = replace(list, Vec::new(alloc));
    taken.clear();
    Ok(taken)
}

/// The pairs below the high, of a list in the order of their keys.
fn cut(list: Vec<(Key, u64)>, high: Fence) -> Vec<(Key, u64)>
    requires { rises 0 key_count list.items ≡ true }
    ensures { result.items ≡ below (end_of high) list.items }
{
    let mut list = list;
    if let Fence::Key(high) = high {
        let end = list.partition_point(|&(key, _)| key < high);
        list.truncate(end);
    }
    list
}

impl<A: Allocator + Copy> Slot<A> {
    /// Whether no key below the high lies past the page.
    fn ends_past(&self, high: Fence) -> bool
        ensures { IsTrue result ↔ (end_of high ≤ end_of self.now.high) }
    {
        match self.high() {
            Fence::Key(end) => !high.is_above(end),
            Fence::Top => true,
        }
    }

    /// The list, and after its pairs those of the page from the key on, as many as the limit leaves.
    fn list_from(&self, low: Key, limit: usize, list: Vec<(Key, u64)>) -> Vec<(Key, u64)>
        requires in_row { is_in_row self.now.stage ≡ true }
        requires sound { HasSoundChain self.now }
        requires few { length list.items ≤ limit }
        requires room { length (take limit (list.items ++ from low (pairs_in self.now)))
            ≤ vec_capacity list }
        ensures items { result.items ≡ take limit (list.items ++ from low (pairs_in self.now)) }
        ensures capacity { vec_capacity list ≤ vec_capacity result }
    {
        append_first_pairs(self.own_chain(), low, limit, list)
    }
}
