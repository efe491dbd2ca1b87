//! The merge of a page into the page on its left, with every step that it takes, made in the place
//! where the pages lie.

ghost use Rattle.std.specs.Prelude.{◌≡◌, ◌+◌, ◌<◌, Some, true, false, IsTrue, IfSome, IfNone, IfOk, IfErr, OnErr};
ghost use Rattle.bw_delta.specs.declared.chain.Delta.TheVariants as deltas;
ghost use Rattle.bw_law.specs.Slots.{slot_in};
ghost use Rattle.bw_table.specs.InPlaces.{FitsInto, IsBare, IsLeftOf, IsMergedUnder, IsOver, IsWhyUndone, LosesTerm, Meets, MayMerge, MayMergeLeft, MayMergeUnder, MergesIn, left_under, slot_joined, slot_with, slots_merged_at_once};

use crate::slot::Slot;
use crate::table::Table;
use bw_chain::{join_in_place, unroute_in_place};
use bw_keys::{Key, Pid};
use bw_step::{Denied, Stage, Unperformed};
use std::alloc::Allocator;
use std::mem;

impl<A: Allocator + Copy> Table<A> {
    /// Merges a page into the page on its left and takes its term out of the parent, and
    /// consolidates these two, as the five steps one after the other do. Returns the page on the
    /// left. Fails and changes nothing with `StepByStep` where one of the three isn't a posted page
    /// without records, where the parent isn't above the two and begins before the page, where the
    /// entries of both are too many for a page, and where a number is used up, and with `NoMemory`
    /// where memory is short.
    pub fn merge_under(&mut self, parent: Pid, page: Pid) -> Result<Pid, Unperformed>
        ensures done { IfOk result (λ left.
            IsMergedUnder self.old parent.0 page.0 left self.new) }
        ensures fanout { IfOk result (λ left. FitsInto self.old left.0 page.0) }
        ensures why { IfErr result (IsWhyUndone (MayMergeLeft self.old parent.0 page.0)) }
        ensures unchanged { OnErr result (self.new ≡ self.old) }
    {
        let Some(left) = self.left_under(parent, page) else {
            return Err(Unperformed::StepByStep);
        };
        if !self.may_merge_under(parent, left, page) {
            return Err(Unperformed::StepByStep);
        }
        let Some(version) = merge_at(self.alloc, &mut self.slots, parent, left, page) else {
            return Err(Unperformed::Denied(Denied::NoMemory));
        };
        self.free.give_back(page, version);
        self.pages_changed();
        Ok(left)
    }

    /// The page by the route before the page's.
    fn left_under(&self, parent: Pid, page: Pid) -> Option<Pid>
        ensures left { IfSome result (λ left. left_under self.now parent.0 page.0 ≡ Some left) }
        ensures none { IfNone result (MayMergeLeft self.now parent.0 page.0 → ⊥) }
    {
        let low = self.slot(page)?.low();
        let over = self.slot(parent)?;
        if !over.stage.is_in_row() {
            return None;
        }
        match over.route_before(low) {
            Some((_, left)) => Some(left),
            None => None,
        }
    }

    fn may_merge_under(&self, parent: Pid, left: Pid, page: Pid) -> bool
        ensures may { IsTrue result → MayMergeUnder self.now parent.0 left.0 page.0 }
        ensures unfit { result ≡ false → MayMergeUnder self.now parent.0 left.0 page.0 → ⊥ }
    {
        let (Some(over), Some(into), Some(slot)) = (
            self.slot(parent),
            self.slot(left),
            self.slot(page),
        ) else {
            return false;
        };
        over.may_merge(into, slot, page, u64::from(self.config.fanout))
    }
}

impl<A: Allocator + Copy> Slot<A> {
    /// Whether the page on the left takes in the other under this one.
    fn may_merge(&self, into: &Slot<A>, slot: &Slot<A>, page: Pid, most: u64) -> bool
        ensures may { IsTrue result → MayMerge self.now into.now slot.now page.0 most }
        ensures unfit { result ≡ false → MayMerge self.now into.now slot.now page.0 most → ⊥ }
    {
        self.is_bare()
            && into.is_bare()
            && slot.is_bare()
            && self.is_over(slot)
            && into.is_left_of(slot, page, most)
            && self.version < u64::MAX - 1
            && into.version < u64::MAX - 1
            && slot.version < u64::MAX - 2
    }

    fn is_bare(&self) -> bool
        ensures may { IsTrue result → IsBare self.now }
        ensures unfit { result ≡ false → IsBare self.now → ⊥ }
    {
        self.stage == Stage::Posted && self.depth == 0
    }

    /// Whether this is the page above the other, and not the first one under it.
    fn is_over(&self, slot: &Slot<A>) -> bool
        ensures may { IsTrue result → IsOver self.now slot.now }
        ensures unfit { result ≡ false → IsOver self.now slot.now → ⊥ }
    {
        self.is_above(slot) && self.holds(slot.low) && self.low < slot.low
    }

    /// Whether the page links to the other, and both together have no more entries than that.
    fn is_left_of(&self, slot: &Slot<A>, page: Pid, most: u64) -> bool
        ensures may { IsTrue result → IsLeftOf self.now slot.now page.0 most }
        ensures unfit { result ≡ false → IsLeftOf self.now slot.now page.0 most → ⊥ }
    {
        self.right() == Some(page) && self.count <= most && slot.count <= most - self.count
    }
}

/// Moves the entries of the page to the left one, frees its slot, and takes its term out of the
/// parent. Returns the version of the free slot, or returns `None` and changes nothing.
fn merge_at<A: Allocator + Copy>(
    alloc: A,
    slots: &mut Vec<Slot<A>>,
    parent: Pid,
    left: Pid,
    page: Pid,
) -> Option<u64>
    requires takes { MergesIn slots.old.items parent.0 left.0 page.0 }
    ensures version { IfSome result (λ version.
        version ≡ (slot_in slots.old.items page.0).version + 3) }
    ensures merged { IfSome result (λ version.
        slots.new.items ≡ slots_merged_at_once parent.0 left.0 page.0 slots.old.items) }
    ensures unchanged { IfNone result (slots.new.items ≡ slots.old.items) }
{
    let version = slots[page.0 as usize].version + 3;
    let taken = mem::replace(&mut slots[page.0 as usize], Slot::free(alloc, version));
    if !slots[left.0 as usize].join(&taken) {
        slots[page.0 as usize] = taken;
        return None;
    }
    slots[parent.0 as usize].unroute(taken.low());
    Some(version)
}

impl<A: Allocator + Copy> Slot<A> {
    /// Takes in the entries of the page on the right, and ends where that one does.
    fn join(&mut self, right: &Slot<A>) -> bool
        requires { Meets self.old right.now }
        ensures joined { result ≡ true → self.new ≡ slot_joined self.old right.now }
        ensures unchanged { result ≡ false → self.new ≡ self.old }
    {
        let Some(taken) = right.chain() else {
            return false;
        };
        if !self.stage.is_in_row() || !join_in_place(&mut self.chain, taken) {
            return false;
        }
        self.version += 2;
        self.high = right.high;
        self.right = right.right;
        self.count += right.count;
        self.depth = 0;
        true
    }

    /// Takes the route at the separator out of the base page's own list.
    fn unroute(&mut self, separator: Key)
        requires { LosesTerm self.old }
        ensures { self.new ≡ slot_with (Some (deltas.TermDelete separator)) self.old }
    {
        if !self.stage.is_in_row() {
            unreachable!()
        }
        unroute_in_place(&mut self.chain, separator);
        self.version += 2;
        self.count = self.count.saturating_sub(1);
        self.depth = 0;
    }
}
