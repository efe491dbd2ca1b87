//! The leaf of a key, found while no page on the way to it is in the middle of a split or a merge:
//! then a search has nothing to finish for others.

ghost use Rattle.std.specs.Prelude.{◌≡◌, ◌<◌, true, length, IfSome, IfNone};
ghost use Rattle.bw_step.specs.Stages.{is_in_row};
ghost use Rattle.bw_law.specs.Laws.{IsLeafOf};
ghost use Rattle.bw_law.specs.Tables.{Lawful, slot_at};
ghost use Rattle.bw_table.specs.InPlaces.{IsPostedLeaf};
ghost use Rattle.bw_table.specs.Rests.{MeetsTodo, is_unfinished, next_by_routes};
ghost use Rattle.bw_table.specs.SlotFacts.{HasSoundChain};
ghost use Rattle.bw_table.specs.Views.{view_of};

use crate::slot::Slot;
use crate::table::Table;
use bw_keys::{Fence, Key, Pid};
use bw_step::{Stage, View};
use std::alloc::Allocator;

impl<A: Allocator + Copy> Table<A> {
    /// Returns the leaf whose range holds the key, if no page on the way to it is in the middle of
    /// a split or a merge. It takes no memory.
    #[inline(always)]
    pub fn leaf_at_rest(&self, key: Key) -> Option<View>
        ensures view { IfSome result (λ view.
            view ≡ view_of view.pid (slot_at self.now view.pid.0)) }
        ensures leaf { IfSome result (λ view. IsLeafOf self.now key view.pid.0) }
        ensures posted { IfSome result (λ view. view.stage ≡ Stage.Posted) }
        ensures unfinished { IfNone result (MeetsTodo self.now key) }
    {
        let page = self.page_at_rest(key)?;
        Some(self.slot_in_row(page).view(page))
    }

    /// The page of that leaf. A page is asked for its stage when the walk has come to it, so a
    /// route may lead to one that was taken in.
    #[inline(never)]
    pub(crate) fn page_at_rest(&self, key: Key) -> Option<Pid>
        ensures leaf { IfSome result (λ page. IsLeafOf self.now key page.0) }
        ensures posted { IfSome result (λ page. (slot_at self.now page.0).stage ≡ Stage.Posted) }
        ensures unfinished { IfNone result (MeetsTodo self.now key) }
    {
        self.page_by_walk(key)
    }

    /// Does what [`Table::page_at_rest`] does, and is built into its caller.
    #[tactic(auto, using(crate::proofs::InPlaces::posted_leaf_is_its))]
    #[inline(always)]
    pub(crate) fn page_by_walk(&self, key: Key) -> Option<Pid>
        ensures leaf { IfSome result (λ page. IsLeafOf self.now key page.0) }
        ensures posted { IfSome result (λ page. (slot_at self.now page.0).stage ≡ Stage.Posted) }
        ensures unfinished { IfNone result (MeetsTodo self.now key) }
    {
        match self.guided_at_rest(key) {
            Some(page) => Some(page),
            None => self.page_from_root(key),
        }
    }

    /// The leaf to which the guide leads. While a page anywhere is unfinished the guide isn't asked, as a
    /// walk may meet that page.
    #[inline(always)]
    fn guided_at_rest(&self, key: Key) -> Option<Pid>
        ensures { IfSome result (λ page. IsPostedLeaf (slot_at self.now page.0) key) }
    {
        if !self.guide.is_at_rest() {
            return None;
        }
        self.guided(key)
    }

    /// The leaf at the end of a walk from the root.
    #[inline(never)]
    fn page_from_root(&self, key: Key) -> Option<Pid>
        ensures leaf { IfSome result (λ page. IsLeafOf self.now key page.0) }
        ensures posted { IfSome result (λ page. (slot_at self.now page.0).stage ≡ Stage.Posted) }
        ensures unfinished { IfNone result (MeetsTodo self.now key) }
    {
        let mut page = Pid(self.root);
        'walk: loop {
            let slot = self.slot_inside(page);
            if is_unfinished(slot.stage) {
                return None;
            }
            match slot.next_by_routes(key) {
                Some(next) => page = next,
                None => return Some(page),
            }
        }
    }

    /// Returns what [`Table::page_at_rest`] does. A key of the last leaf needs no walk: that leaf is
    /// noted when a walk comes to it, and forgotten when a split or a removal begins, so that a walk
    /// would meet nothing unfinished.
    #[inline(always)]
    pub(crate) fn page_to_change(&mut self, key: Key) -> Option<Pid>
        ensures leaf { IfSome result (λ page. IsPostedLeaf (slot_at self.old page.0) key) }
        ensures unfinished { IfNone result (MeetsTodo self.old key) }
        ensures unchanged { self.new ≡ self.old }
    {
        if key < self.last_from {
            return self.page_by_walk(key);
        }
        if let Some(last) = self.last_leaf_for(key) {
            return Some(last);
        }
        self.walk_towards_last(key)
    }

    /// The last leaf, if it is noted and its range holds the key. The note is a hint, so the leaf is
    /// asked.
    #[inline(always)]
    fn last_leaf_for(&self, key: Key) -> Option<Pid>
        ensures { IfSome result (λ page. IsPostedLeaf (slot_at self.now page.0) key) }
    {
        let last = Pid(self.last_leaf);
        if !self.slot(last)?.is_posted_leaf(key) {
            return None;
        }
        Some(last)
    }

    /// Walks to the key's leaf. Notes it if it is the last; otherwise the last one lies past it.
    #[inline(never)]
    fn walk_towards_last(&mut self, key: Key) -> Option<Pid>
        ensures leaf { IfSome result (λ page. IsPostedLeaf (slot_at self.old page.0) key) }
        ensures unfinished { IfNone result (MeetsTodo self.old key) }
        ensures unchanged { self.new ≡ self.old }
    {
        let page = self.page_at_rest(key)?;
        match self.slot_in_row(page).high() {
            Fence::Top => self.note_last_leaf(),
            Fence::Key(high) => self.last_from = high,
        }
        Some(page)
    }

    /// Notes the last leaf, if the walk to the greatest key meets nothing unfinished: walks to the
    /// other keys of that leaf go through the same pages.
    fn note_last_leaf(&mut self)
        ensures { self.new ≡ self.old }
    {
        if let Some(page) = self.page_at_rest(Key::MAX) {
            self.last_from = self.slot_in_row(page).low;
            self.last_leaf = page.0;
        }
    }

    /// The slot of a page that isn't past the end.
    #[tactic(auto, using(crate::proofs::Whole::has_sound_chain))]
    #[inline(always)]
    fn slot_inside(&self, page: Pid) -> &Slot<A>
        requires { page.0 < length self.now.slots }
        ensures lawful { Lawful self.now }
        ensures there { result.now ≡ slot_at self.now page.0 }
        ensures sound { HasSoundChain result.now }
    {
        &self.slots[page.0 as usize]
    }
}

impl<A: Allocator + Copy> Slot<A> {
    /// The page on the right where the key is past this one; otherwise the one below, if this one
    /// is no leaf. It may be one that was taken in.
    #[inline(always)]
    fn next_by_routes(&self, key: Key) -> Option<Pid>
        requires in_row { is_in_row self.now.stage ≡ true }
        requires sound { HasSoundChain self.now }
        ensures { result ≡ next_by_routes self.now key }
    {
        match self.high() {
            Fence::Key(high) if high <= key => self.right(),
            _ if self.level == 0 => None,
            _ => self.child_page(key),
        }
    }
}

/// Whether a page at the stage has a term to get, a neighbour to go to, or a term to lose.
#[inline(always)]
fn is_unfinished(stage: Stage) -> bool
    ensures { result ≡ is_unfinished stage }
{
    matches!(stage, Stage::Unposted | Stage::Marked | Stage::Merged)
}
