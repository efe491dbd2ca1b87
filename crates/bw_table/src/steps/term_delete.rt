//! term delete: a record on the parent; the child's slot is Free, and its id goes to the end of the free
//! list, unless its version is 2^64 - 1.

ghost use Rattle.std.specs.Prelude.{◌≡◌, ◌≢◌, suc, ◌+◌, ◌-◌, ◌^◌, ◌<◌, None, length};
ghost use Rattle.bw_delta.specs.declared.chain.Delta.TheVariants as deltas;
ghost use Rattle.bw_step.specs.ProposalView.{term_delete_of};
ghost use Rattle.bw_law.specs.Effects.{TakesStep, slots_unposted, with_record};
ghost use Rattle.bw_law.specs.Refusals.{refusal, term_delete_reasons};
ghost use Rattle.bw_law.specs.Slots.{slot_in, free_slot};
ghost use Rattle.bw_table.specs.Answers.{AnswersFirst, fine_unless};
ghost use Rattle.bw_table.specs.SlotFacts.{MayGrowDeeper};

use crate::slot::Slot;
use crate::table::Table;
use bw_delta::{Delta, Spare};
use bw_keys::{Key, Pid};
use bw_step::{Kind, Receipt, Refused, Stage, TermDelete};
use std::alloc::Allocator;

impl<A: Allocator + Copy> Table<A> {
    /// Why the removal of the term is refused.
    pub(super) fn check_term_delete(&self, step: &TermDelete<A>) -> Result<(), Refused>
        ensures { result ≡ fine_unless (refusal self.now (term_delete_of step.now)) }
    {
        let (Some(over), Some(under)) = (self.slot(step.parent), self.slot(step.child)) else {
            return Err(Refused::Absent);
        };
        may_delete_term(over, under, step)
    }

    /// Removes a term, which isn't refused.
    pub(super) fn term_delete(&mut self, step: TermDelete<A>) -> Receipt
        requires { refusal self.old (term_delete_of step) ≡ None }
        ensures { TakesStep self.old (term_delete_of step) result self.new }
    {
        let TermDelete {
            parent,
            child,
            spare,
            ..
        } = step;
        let version = term_delete_at(self.alloc, &mut self.slots, parent, child, spare);
        self.free.give_back(child, version);
        self.page_finished();
        Receipt::Shaped {
            kind: Kind::TermDelete,
            page: parent,
            other: Some(child),
        }
    }
}

/// Why the removal of the term is refused on the slots of the parent and the child.
fn may_delete_term<A: Allocator + Copy>(
    over: &Slot<A>,
    under: &Slot<A>,
    step: &TermDelete<A>,
) -> Result<(), Refused>
    ensures { let step = step.now in AnswersFirst
        (term_delete_reasons over.now under.now step.parent_seen.0 step.child_seen.0) result }
{
    if !over.stage.is_in_row() || under.stage == Stage::Free {
        return Err(Refused::Absent);
    }
    if over.version != step.parent_seen.0 || under.version != step.child_seen.0 {
        return Err(Refused::Stale);
    }
    if over.stage == Stage::Marked {
        return Err(Refused::Frozen);
    }
    if !over.is_above(under) {
        return Err(Refused::WrongKind);
    }
    if under.stage != Stage::Merged {
        return Err(Refused::WrongStage);
    }
    if !over.holds(under.low) {
        return Err(Refused::WrongParent);
    }
    if over.is_full() {
        return Err(Refused::Deep);
    }
    if over.is_worn() || under.is_worn() {
        return Err(Refused::Worn);
    }
    Ok(())
}

/// Takes the term of a merged child out of its parent, and frees the child's slot. Returns the
/// version of the free slot.
fn term_delete_at<A: Allocator + Copy>(
    alloc: A,
    slots: &mut Vec<Slot<A>>,
    parent: Pid,
    child: Pid,
    spare: Spare<A>,
) -> u64
    requires exists { parent.0 < length slots.old.items }
    requires child_exists { child.0 < length slots.old.items }
    requires apart { child.0 ≢ parent.0 }
    requires deeper { MayGrowDeeper (slot_in slots.old.items parent.0) }
    requires child_version { (slot_in slots.old.items child.0).version + 1 < 2 ^ 64 }
    requires count { 0 < (slot_in slots.old.items parent.0).count }
    ensures version { result ≡ suc (slot_in slots.old.items child.0).version }
    ensures slots { slots.new.items ≡ slots_unposted parent.0 child.0 slots.old.items }
{
    let low = slots[child.0 as usize].low();
    slots[parent.0 as usize].term_delete(low, spare);
    slots[child.0 as usize].free_up(alloc)
}

impl<A: Allocator + Copy> Slot<A> {
    fn term_delete(&mut self, low: Key, spare: Spare<A>)
        requires deeper { MayGrowDeeper self.old }
        requires count { 0 < self.old.count }
        ensures { self.new ≡ with_record (deltas.TermDelete low) (self.old.count - 1) self.old }
    {
        let count = self.count - 1;
        self.record(Delta::TermDelete(low), count, spare);
    }

    /// Frees the slot, and returns its version.
    fn free_up(&mut self, alloc: A) -> u64
        requires version { self.old.version + 1 < 2 ^ 64 }
        ensures version { result ≡ suc self.old.version }
        ensures slot { self.new ≡ free_slot (suc self.old.version) }
    {
        *self = Slot::free(alloc, self.version + 1);
        self.version
    }
}
