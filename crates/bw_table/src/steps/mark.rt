//! mark: a record on the page, which is Marked.

ghost use Rattle.std.specs.Prelude.{◌≡◌, ◌<◌, None};
ghost use Rattle.bw_step.specs.ProposalView.{mark_of};
ghost use Rattle.bw_law.specs.Effects.{TakesStep, marked};
ghost use Rattle.bw_law.specs.Refusals.{refusal, mark_reasons};
ghost use Rattle.bw_table.specs.Answers.{AnswersFirst, fine_unless};
ghost use Rattle.bw_table.specs.SlotFacts.{MayGrowDeeper};

use crate::link::NO_PAGE;
use crate::slot::Slot;
use crate::table::Table;
use bw_delta::{Delta, Spare};
use bw_keys::MAX_DEPTH;
use bw_step::{Kind, Mark, Receipt, Refused, Stage};
use std::alloc::Allocator;

impl<A: Allocator + Copy> Table<A> {
    /// Why the mark is refused.
    pub(super) fn check_mark(&self, step: &Mark<A>) -> Result<(), Refused>
        ensures { result ≡ fine_unless (refusal self.now (mark_of step.now)) }
    {
        let (Some(slot), Some(over)) = (self.slot(step.page), self.slot(step.parent)) else {
            return Err(Refused::Absent);
        };
        may_mark(slot, over, step)
    }

    /// Does a mark that isn't refused.
    pub(super) fn mark(&mut self, step: Mark<A>) -> Receipt
        requires { refusal self.old (mark_of step) ≡ None }
        ensures { TakesStep self.old (mark_of step) result self.new }
    {
        let Mark { page, spare, .. } = step;
        self.slots[page.0 as usize].mark(spare);
        self.last_leaf = NO_PAGE;
        self.guide.note_unfinished();
        Receipt::Shaped {
            kind: Kind::Mark,
            page,
            other: None,
        }
    }
}

/// Why the mark is refused on the slots of the page and its parent.
fn may_mark<A: Allocator + Copy>(
    slot: &Slot<A>,
    over: &Slot<A>,
    step: &Mark<A>,
) -> Result<(), Refused>
    ensures { AnswersFirst (mark_reasons slot.now over.now step.now.seen.0) result }
{
    if !slot.stage.is_in_row() || !over.stage.is_in_row() {
        return Err(Refused::Absent);
    }
    if slot.version != step.seen.0 {
        return Err(Refused::Stale);
    }
    if slot.stage == Stage::Marked {
        return Err(Refused::Frozen);
    }
    if !over.is_above(slot) {
        return Err(Refused::WrongKind);
    }
    if slot.stage != Stage::Posted {
        return Err(Refused::WrongStage);
    }
    if !over.holds(slot.low) {
        return Err(Refused::WrongParent);
    }
    if slot.low == over.low {
        return Err(Refused::Leftmost);
    }
    // The chain must still fit under the merge record of its left neighbour.
    if slot.depth > MAX_DEPTH - 2 {
        return Err(Refused::Deep);
    }
    if slot.is_worn() {
        return Err(Refused::Worn);
    }
    Ok(())
}

impl<A: Allocator + Copy> Slot<A> {
    fn mark(&mut self, spare: Spare<A>)
        requires deeper { MayGrowDeeper self.old }
        ensures { self.new ≡ marked self.old }
    {
        let count = self.count;
        self.record(Delta::Remove, count, spare);
        self.stage = Stage::Marked;
    }
}
