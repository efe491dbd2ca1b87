//! The map's value at a key, found by a descent from the root that borrows each slot on its way.

ghost use Rattle.std.specs.Prelude.{◌≡◌, true};
ghost use Rattle.bw_step.specs.Stages.{is_in_row};
ghost use Rattle.bw_law.specs.Laws.{IsLeafOf};
ghost use Rattle.bw_law.specs.Slots.{is_merged};
ghost use Rattle.bw_law.specs.Tables.{Lawful, slot_at, number_of};
ghost use Rattle.bw_table.specs.SlotFacts.{HasSoundChain};
ghost use Rattle.bw_table.specs.Gets.{IsMapAt, IsUpTo, LeadsOn, next_page, live_child};

use crate::slot::Slot;
use crate::table::Table;
use bw_keys::{Fence, Key, Pid};
use bw_step::{Look, Stage};
use std::alloc::Allocator;

impl<A: Allocator + Copy> Table<A> {
    /// Returns the value that the map has at the key, if it has one. It takes no memory.
    #[inline(always)]
    pub fn get(&self, key: Key) -> Option<u64>
        ensures { IsMapAt self.now key result }
    {
        self.slot_in_row(self.page_for(key)).find(key)
    }

    /// Returns what the map has at the key, and the number of changes of the map so far. It takes no
    /// memory.
    #[inline(always)]
    pub fn look_up(&self, key: Key) -> Look
        ensures found { IsMapAt self.now key result.found }
        ensures at { result.at ≡ number_of self.now.book }
    {
        Look {
            found: self.get(key),
            at: self.number(),
        }
    }

    /// The leaf whose range holds the key.
    #[tactic(auto, using(crate::proofs::InPlaces::posted_leaf_is_its))]
    #[inline(always)]
    pub(crate) fn page_for(&self, key: Key) -> Pid
        ensures lawful { Lawful self.now }
        ensures leaf { IsLeafOf self.now key result.0 }
    {
        self.law();
        match self.guided(key) {
            Some(page) => page,
            None => self.walk_down(key),
        }
    }

    /// The leaf at the end of a walk from the root.
    #[inline(never)]
    fn walk_down(&self, key: Key) -> Pid
        ensures lawful { Lawful self.now }
        ensures leaf { IsLeafOf self.now key result.0 }
    {
        self.walk(Pid(self.root), key)
    }

    /// The leaf whose range holds the key, from a page on that begins at or below it.
    #[inline(always)]
    pub(crate) fn walk(&self, page: Pid, key: Key) -> Pid
        requires { IsUpTo self.now key page.0 }
        ensures lawful { Lawful self.now }
        ensures leaf { IsLeafOf self.now key result.0 }
    {
        self.law();
        let mut page = page;
        'walk: while let Some(next) = self.onward(page, key) {
            page = next;
        }
        page
    }

    /// The next page of a search for the key; none after the leaf.
    #[inline(always)]
    pub(crate) fn onward(&self, page: Pid, key: Key) -> Option<Pid>
        requires { IsUpTo self.now key page.0 }
        ensures { LeadsOn self.now key page.0 result }
    {
        self.next_page(self.slot_in_row(page), key)
    }

    /// The page on the right where the key is past this one; otherwise the one below, if this one is
    /// no leaf.
    #[inline(always)]
    fn next_page(&self, slot: &Slot<A>, key: Key) -> Option<Pid>
        requires in_row { is_in_row slot.now.stage ≡ true }
        requires sound { HasSoundChain slot.now }
        ensures { result ≡ next_page self.now.slots slot.now key }
    {
        match slot.high() {
            Fence::Key(high) if high <= key => slot.right(),
            _ if slot.level == 0 => None,
            _ => self.live_child(slot, key),
        }
    }

    /// The page by the greatest route at or below the key that leads to one which isn't merged.
    #[inline(always)]
    fn live_child(&self, slot: &Slot<A>, key: Key) -> Option<Pid>
        requires in_row { is_in_row slot.now.stage ≡ true }
        requires sound { HasSoundChain slot.now }
        ensures { result ≡ live_child self.now.slots slot.now key }
    {
        let mut route = slot.child(key);
        'routes: while let Some((separator, child)) = route {
            if !self.is_taken_in(child) {
                return Some(child);
            }
            route = slot.route_before(separator);
        }
        None
    }

    /// Whether the page was taken in to its left neighbour.
    #[inline(always)]
    pub(crate) fn is_taken_in(&self, pid: Pid) -> bool
        ensures { result ≡ is_merged (slot_at self.now pid.0).stage }
    {
        match self.slot(pid) {
            Some(slot) => slot.stage == Stage::Merged,
            None => false,
        }
    }

    /// The slot of a page in a row.
    #[inline(always)]
    pub(crate) fn slot_in_row(&self, page: Pid) -> &Slot<A>
        requires { is_in_row (slot_at self.now page.0).stage ≡ true }
        ensures lawful { Lawful self.now }
        ensures there { result.now ≡ slot_at self.now page.0 }
        ensures sound { HasSoundChain result.now }
    {
        &self.slots[page.0 as usize]
    }
}
