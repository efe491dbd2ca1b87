//! Pairs that are put behind all pairs of a leaf, each as an insertion and a consolidation.

ghost use Rattle.std.specs.Prelude.{◌≡◌, ◌++◌, ℕ, ◌+◌, ◌<◌, true, false, IsTrue, IfErr, OnOk, OnErr, length};
ghost use Rattle.bw_keys.specs.Ranges.{end_of};
ghost use Rattle.bw_delta.specs.Entries.{rises};
ghost use Rattle.bw_delta.specs.Slices.{list_of};
ghost use Rattle.bw_chain.specs.Ascends.{IsAscending};
ghost use Rattle.bw_step.specs.Stages.{is_in_row};
ghost use Rattle.bw_law.specs.Slots.{slot_in, pairs_in};
ghost use Rattle.bw_table.specs.Appends.{AppendsInTurn, MayAppend, MayAppendBehind, TakesEach, TakesPairs};
ghost use Rattle.bw_table.specs.Appends.{slot_with_each, slots_with_each};
ghost use Rattle.bw_table.specs.InPlaces.{IsWhyUndone};
ghost use Rattle.bw_table.specs.SlotFacts.{HasSoundChain};

use crate::slot::Slot;
use crate::table::Table;
use bw_chain::append_in_place;
use bw_delta::EntrySlice;
use bw_keys::Pid;
use bw_step::{Denied, Stage, Unperformed};
use std::alloc::Allocator;

impl<A: Allocator + Copy> Table<A> {
    /// Puts pairs, whose keys rise, behind all that the leaf has, as an insertion and a
    /// consolidation for each of them do, one after the other. Fails and changes nothing with
    /// `StepByStep` where the page isn't a posted leaf without records whose range has the keys,
    /// where the first isn't above all that the leaf has, and where a number is used up, and with
    /// `NoMemory` where memory is short.
    pub fn append_to_leaf(
        &mut self,
        page: Pid,
        pairs: EntrySlice<'_, u64>,
    ) -> Result<(), Unperformed>
        requires { IsAscending (list_of pairs) }
        ensures done { OnOk result
            (AppendsInTurn self.old page.0 (list_of pairs.entry) self.new) }
        ensures why { IfErr result
            (IsWhyUndone (MayAppendBehind self.old page.0 (list_of pairs.entry))) }
        ensures unchanged { OnErr result (self.new ≡ self.old) }
    {
        if !self.may_append(page, pairs) {
            return Err(Unperformed::StepByStep);
        }
        if let Err(why) = append_at(&mut self.slots, page, pairs) {
            return Err(why);
        }
        self.book.inserted += pairs.len() as u64;
        Ok(())
    }

    fn may_append(&self, page: Pid, pairs: EntrySlice<'_, u64>) -> bool
        requires { IsAscending (list_of pairs) }
        ensures may { IsTrue result → MayAppend self.now page.0 (list_of pairs.entry) }
        ensures unfit { result ≡ false → MayAppend self.now page.0 (list_of pairs.entry) → ⊥ }
    {
        let Some(slot) = self.slot(page) else {
            return false;
        };
        if !slot.may_append(pairs) {
            return false;
        }
        let count = pairs.len() as u64;
        count <= (u64::MAX - slot.version) / 2 && count <= u64::MAX - self.number()
    }
}

/// Appends the pairs in the slot of the leaf.
#[inline(always)]
fn append_at<A: Allocator + Copy>(
    slots: &mut Vec<Slot<A>>,
    page: Pid,
    pairs: EntrySlice<'_, u64>,
) -> Result<(), Unperformed>
    requires exists { page.0 < length slots.old.items }
    requires in_row { is_in_row (slot_in slots.old.items page.0).stage ≡ true }
    requires sound { HasSoundChain (slot_in slots.old.items page.0) }
    requires rise { IsAscending (list_of pairs) }
    requires takes { TakesEach (slot_in slots.old.items page.0) (list_of pairs) }
    ensures behind { OnOk result
        (IsAscending (pairs_in (slot_in slots.old.items page.0) ++ list_of pairs.entry)) }
    ensures appended { OnOk result
        (slots.new.items ≡ slots_with_each page.0 (list_of pairs.entry) slots.old.items) }
    ensures why { IfErr result (IsWhyUndone
        (IsAscending (pairs_in (slot_in slots.old.items page.0) ++ list_of pairs.entry))) }
    ensures unchanged { OnErr result (slots.new.items ≡ slots.old.items) }
{
    if !slots[page.0 as usize].append_in_place(pairs) {
        return Err(slots[page.0 as usize].why_not_appended(pairs));
    }
    Ok(())
}

impl<A: Allocator + Copy> Slot<A> {
    /// Whether this is a posted leaf without records, whose range has the keys.
    fn may_append(&self, pairs: EntrySlice<'_, u64>) -> bool
        requires { IsAscending (list_of pairs) }
        ensures posted { IsTrue result → self.now.stage ≡ Stage.Posted }
        ensures leaf { IsTrue result → self.now.level ≡ 0 }
        ensures no_records { IsTrue result → self.now.depth ≡ 0 }
        ensures inside { IsTrue result
            → rises self.now.low (end_of self.now.high) (list_of pairs.entry) ≡ true }
        ensures unfit { result ≡ false
            → (number : ℕ) → TakesPairs self.now number (list_of pairs.entry) → ⊥ }
    {
        self.stage == Stage::Posted && self.level == 0 && self.depth == 0 && self.holds_all(pairs)
    }

    /// Whether the range of the page holds all keys, which rise.
    fn holds_all(&self, pairs: EntrySlice<'_, u64>) -> bool
        requires { IsAscending (list_of pairs) }
        ensures { result ≡ rises self.now.low (end_of self.now.high) (list_of pairs.entry) }
    {
        match (pairs.first(), pairs.last()) {
            (Some(first), Some(last)) => self.holds(first.0) && self.holds(last.0),
            _ => true,
        }
    }

    /// Why pairs, whose keys rise, weren't put behind those of a page: they aren't all above those,
    /// or memory was short.
    #[inline(never)]
    fn why_not_appended(&self, pairs: EntrySlice<'_, u64>) -> Unperformed
        requires in_row { is_in_row self.now.stage ≡ true }
        requires sound { HasSoundChain self.now }
        requires rise { IsAscending (list_of pairs) }
        ensures { IsWhyUndone (IsAscending (pairs_in self.now ++ list_of pairs.entry)) result }
    {
        let Some(first) = pairs.first() else {
            return Unperformed::Denied(Denied::NoMemory);
        };
        match self.next_at(first.0) {
            Some(_) => Unperformed::StepByStep,
            None => Unperformed::Denied(Denied::NoMemory),
        }
    }

    /// Appends the pairs in the base page's own list.
    #[inline(always)]
    fn append_in_place(&mut self, pairs: EntrySlice<'_, u64>) -> bool
        requires { TakesEach self.old (list_of pairs) }
        ensures behind { result ≡ true
            → IsAscending (pairs_in self.old ++ list_of pairs.entry) }
        ensures appended { result ≡ true
            → self.new ≡ slot_with_each (list_of pairs.entry) self.old }
        ensures unchanged { result ≡ false → self.new ≡ self.old }
    {
        if !self.stage.is_in_row() || !append_in_place(&mut self.chain, pairs) {
            return false;
        }
        let count = pairs.len() as u64;
        self.version += 2 * count;
        self.count += count;
        true
    }
}
