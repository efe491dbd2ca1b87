//! term add: a record on the parent; the child is Posted.

ghost use Rattle.std.specs.Prelude.{◌≡◌, ◌≢◌, suc, ◌+◌, ◌^◌, ◌<◌, true, None, length};
ghost use Rattle.bw_delta.specs.declared.chain.Delta.TheVariants as deltas;
ghost use Rattle.bw_step.specs.ProposalView.{term_add_of};
ghost use Rattle.bw_step.specs.Stages.{is_in_row};
ghost use Rattle.bw_law.specs.Effects.{TakesStep, slots_posted, with_record};
ghost use Rattle.bw_law.specs.Refusals.{refusal, term_add_reasons};
ghost use Rattle.bw_law.specs.Slots.{slot_in};
ghost use Rattle.bw_table.specs.Answers.{AnswersFirst, fine_unless};
ghost use Rattle.bw_table.specs.SlotFacts.{MayGrowDeeper};

use crate::slot::Slot;
use crate::table::Table;
use bw_delta::{Delta, Spare};
use bw_keys::{Key, Pid};
use bw_step::{Kind, Receipt, Refused, Stage, TermAdd};
use std::alloc::Allocator;

impl<A: Allocator + Copy> Table<A> {
    /// Why the term is refused.
    pub(super) fn check_term_add(&self, step: &TermAdd<A>) -> Result<(), Refused>
        ensures { result ≡ fine_unless (refusal self.now (term_add_of step.now)) }
    {
        let (Some(over), Some(under)) = (self.slot(step.parent), self.slot(step.child)) else {
            return Err(Refused::Absent);
        };
        may_add_term(over, under, step)
    }

    /// Adds a term that isn't refused.
    pub(super) fn term_add(&mut self, step: TermAdd<A>) -> Receipt
        requires { refusal self.old (term_add_of step) ≡ None }
        ensures { TakesStep self.old (term_add_of step) result self.new }
    {
        let TermAdd {
            parent,
            child,
            spare,
            ..
        } = step;
        term_add_at(&mut self.slots, parent, child, spare);
        self.page_finished();
        Receipt::Shaped {
            kind: Kind::TermAdd,
            page: parent,
            other: Some(child),
        }
    }
}

/// Why the term is refused on the slots of the parent and the child.
fn may_add_term<A: Allocator + Copy>(
    over: &Slot<A>,
    under: &Slot<A>,
    step: &TermAdd<A>,
) -> Result<(), Refused>
    ensures { let step = step.now in AnswersFirst
        (term_add_reasons over.now under.now step.parent_seen.0 step.child_seen.0) result }
{
    if !over.stage.is_in_row() || !under.stage.is_in_row() {
        return Err(Refused::Absent);
    }
    if over.version != step.parent_seen.0 || under.version != step.child_seen.0 {
        return Err(Refused::Stale);
    }
    if over.stage == Stage::Marked {
        return Err(Refused::Frozen);
    }
    if !over.is_above(under) {
        return Err(Refused::WrongKind);
    }
    if under.stage != Stage::Unposted {
        return Err(Refused::WrongStage);
    }
    if !over.holds(under.low) {
        return Err(Refused::WrongParent);
    }
    if let Some(child) = over.route_at(under.low) {
        return Err(Refused::TermStands(child));
    }
    if over.is_full() {
        return Err(Refused::Deep);
    }
    if over.is_worn() || under.is_worn() {
        return Err(Refused::Worn);
    }
    Ok(())
}

/// Names the child in its parent.
fn term_add_at<A: Allocator + Copy>(
    slots: &mut Vec<Slot<A>>,
    parent: Pid,
    child: Pid,
    spare: Spare<A>,
)
    requires exists { parent.0 < length slots.old.items }
    requires child_exists { child.0 < length slots.old.items }
    requires apart { child.0 ≢ parent.0 }
    requires deeper { MayGrowDeeper (slot_in slots.old.items parent.0) }
    requires child_here { is_in_row (slot_in slots.old.items child.0).stage ≡ true }
    requires child_version { (slot_in slots.old.items child.0).version + 1 < 2 ^ 64 }
    requires count { (slot_in slots.old.items parent.0).count + 1 < 2 ^ 64 }
    ensures { slots.new.items ≡ slots_posted parent.0 child slots.old.items }
{
    let low = slots[child.0 as usize].low();
    slots[parent.0 as usize].term_add(low, child, spare);
    slots[child.0 as usize].post();
}

impl<A: Allocator + Copy> Slot<A> {
    fn term_add(&mut self, low: Key, child: Pid, spare: Spare<A>)
        requires deeper { MayGrowDeeper self.old }
        requires count { self.old.count + 1 < 2 ^ 64 }
        ensures { self.new ≡ with_record (deltas.TermAdd low child) (suc self.old.count) self.old }
    {
        let count = self.count + 1;
        self.record(Delta::TermAdd(low, child), count, spare);
    }
}
