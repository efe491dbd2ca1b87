//! merge: the left page's chain is a merge record over both chains; it takes the page's end and side
//! link, and the counts add up; the page is Merged and keeps its low and level.

ghost use Rattle.std.specs.Prelude.{◌≡◌, ◌≢◌, ◌+◌, ◌^◌, ◌<◌, None, length};
ghost use Rattle.bw_step.specs.ProposalView.{merge_of};
ghost use Rattle.bw_law.specs.Effects.{TakesStep, joined, slots_merged, taken_in};
ghost use Rattle.bw_law.specs.Refusals.{refusal, merge_reasons};
ghost use Rattle.bw_law.specs.Slots.{slot_in};
ghost use Rattle.bw_table.specs.Answers.{AnswersFirst, fine_unless};
ghost use Rattle.bw_table.specs.SlotFacts.{MayGrowDeeper};

use crate::slot::Slot;
use crate::table::Table;
use bw_delta::Spare;
use bw_keys::{MAX_DEPTH, Pid};
use bw_step::{Kind, Merge, Receipt, Refused, Stage};
use std::alloc::Allocator;
use std::mem;

impl<A: Allocator + Copy> Table<A> {
    /// Why the merge is refused.
    pub(super) fn check_merge(&self, step: &Merge<A>) -> Result<(), Refused>
        ensures { result ≡ fine_unless (refusal self.now (merge_of step.now)) }
    {
        let (Some(into), Some(slot)) = (self.slot(step.left), self.slot(step.page)) else {
            return Err(Refused::Absent);
        };
        may_merge(into, slot, step)
    }

    /// Does a merge that isn't refused.
    pub(super) fn merge(&mut self, step: Merge<A>) -> Receipt
        requires { refusal self.old (merge_of step) ≡ None }
        ensures { TakesStep self.old (merge_of step) result self.new }
    {
        let Merge {
            left,
            page,
            left_spare,
            page_spare,
            ..
        } = step;
        merge_at(
            self.alloc,
            &mut self.slots,
            left,
            page,
            left_spare,
            page_spare,
        );
        Receipt::Shaped {
            kind: Kind::Merge,
            page: left,
            other: Some(page),
        }
    }
}

/// Why the merge is refused on the slots of the left page and the marked one.
fn may_merge<A: Allocator + Copy>(
    into: &Slot<A>,
    slot: &Slot<A>,
    step: &Merge<A>,
) -> Result<(), Refused>
    ensures { let step = step.now in AnswersFirst
        (merge_reasons into.now slot.now step.left_seen.0 step.page_seen.0 step.page.0) result }
{
    if !into.stage.is_in_row() || !slot.stage.is_in_row() {
        return Err(Refused::Absent);
    }
    if into.version != step.left_seen.0 || slot.version != step.page_seen.0 {
        return Err(Refused::Stale);
    }
    if into.stage == Stage::Marked {
        return Err(Refused::Frozen);
    }
    if into.level != slot.level {
        return Err(Refused::WrongKind);
    }
    if slot.stage != Stage::Marked {
        return Err(Refused::WrongStage);
    }
    if into.right() != Some(step.page) {
        return Err(Refused::NotNeighbours);
    }
    if into.depth.max(slot.depth) >= MAX_DEPTH {
        return Err(Refused::Deep);
    }
    if into.is_worn() || slot.is_worn() {
        return Err(Refused::Worn);
    }
    Ok(())
}

/// Moves the chain of a page under a merge record of its left neighbour.
fn merge_at<A: Allocator + Copy>(
    alloc: A,
    slots: &mut Vec<Slot<A>>,
    left: Pid,
    page: Pid,
    left_spare: Spare<A>,
    page_spare: Spare<A>,
)
    requires left_exists { left.0 < length slots.old.items }
    requires exists { page.0 < length slots.old.items }
    requires apart { page.0 ≢ left.0 }
    requires deeper { MayGrowDeeper (slot_in slots.old.items left.0) }
    requires page_deeper { MayGrowDeeper (slot_in slots.old.items page.0) }
    requires count { (slot_in slots.old.items left.0).count
        + (slot_in slots.old.items page.0).count < 2 ^ 64 }
    ensures { slots.new.items ≡ slots_merged left.0 page.0 slots.old.items }
{
    let given = slots[page.0 as usize].give_up(alloc);
    slots[left.0 as usize].take_in(given, left_spare, page_spare);
}

impl<A: Allocator + Copy> Slot<A> {
    /// Ends the page, which keeps its low and its level until its term is taken out. Returns the slot as it
    /// was.
    fn give_up(&mut self, alloc: A) -> Slot<A>
        requires version { self.old.version + 1 < 2 ^ 64 }
        ensures given { result ≡ self.old }
        ensures slot { self.new ≡ taken_in self.old }
    {
        let mut ended = Slot::free(alloc, self.version + 1);
        ended.stage = Stage::Merged;
        ended.low = self.low;
        ended.level = self.level;
        mem::replace(self, ended)
    }

    /// Takes in the page that the slot was given up by.
    fn take_in(&mut self, given: Slot<A>, left_spare: Spare<A>, page_spare: Spare<A>)
        requires deeper { MayGrowDeeper self.old }
        requires given_deeper { MayGrowDeeper given }
        requires count { self.old.count + given.count < 2 ^ 64 }
        ensures { self.new ≡ joined self.old given }
    {
        let Slot {
            high,
            right,
            depth,
            count,
            low,
            chain,
            ..
        } = given;
        self.version += 1;
        self.high = high;
        self.right = right;
        self.count += count;
        self.depth = self.depth.max(depth) + 1;
        self.chain.merge(
            chain,
            low,
            high.fence(),
            right.page(),
            left_spare,
            page_spare,
        );
    }
}
