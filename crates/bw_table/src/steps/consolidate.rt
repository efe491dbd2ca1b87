//! consolidate: the base is the chain.

ghost use Rattle.std.specs.Prelude.{◌≡◌, ◌+◌, ◌^◌, ◌<◌, true, None};
ghost use Rattle.bw_step.specs.Stages.{is_in_row};
ghost use Rattle.bw_step.specs.ProposalView.{consolidate_of};
ghost use Rattle.bw_law.specs.Effects.{TakesStep, consolidated};
ghost use Rattle.bw_law.specs.Refusals.{refusal, consolidate_reasons};
ghost use Rattle.bw_table.specs.Answers.{AnswersFirst, fine_unless};
ghost use Rattle.bw_table.specs.SlotFacts.{HasSoundChain};

use crate::slot::Slot;
use crate::steps::shared::check_open;
use crate::table::Table;
use bw_delta::{Base, Chain};
use bw_step::{Consolidate, Kind, Receipt, Refused};
use std::alloc::Allocator;

impl<A: Allocator + Copy> Table<A> {
    /// Why the consolidation is refused.
    #[inline(always)]
    pub(super) fn check_consolidate(&self, step: &Consolidate<A>) -> Result<(), Refused>
        ensures { result ≡ fine_unless (refusal self.now (consolidate_of step.now)) }
    {
        let Some(slot) = self.slot(step.page) else {
            return Err(Refused::Absent);
        };
        may_consolidate(slot, step)
    }

    /// Does a consolidation that isn't refused.
    #[inline(always)]
    pub(super) fn consolidate(&mut self, step: Consolidate<A>) -> Receipt
        requires { refusal self.old (consolidate_of step) ≡ None }
        ensures { TakesStep self.old (consolidate_of step) result self.new }
    {
        let Consolidate { page, base, .. } = step;
        self.slots[page.0 as usize].consolidate(base);
        Receipt::Shaped {
            kind: Kind::Consolidate,
            page,
            other: None,
        }
    }
}

/// Why the consolidation is refused on the slot of its page.
#[inline(always)]
fn may_consolidate<A: Allocator + Copy>(
    slot: &Slot<A>,
    step: &Consolidate<A>,
) -> Result<(), Refused>
    requires sound { HasSoundChain slot.now }
    ensures { AnswersFirst (consolidate_reasons slot.now step.now.seen.0 step.now.base) result }
{
    check_open(slot, step.seen)?;
    if slot.is_other_kind(&step.base) {
        return Err(Refused::WrongKind);
    }
    if !slot.is_same_as(&step.base) {
        return Err(Refused::NotSame);
    }
    if slot.is_worn() {
        return Err(Refused::Worn);
    }
    Ok(())
}

impl<A: Allocator + Copy> Slot<A> {
    #[inline(always)]
    fn consolidate(&mut self, base: Base<A>)
        requires in_row { is_in_row self.old.stage ≡ true }
        requires version { self.old.version + 1 < 2 ^ 64 }
        ensures { self.new ≡ consolidated base self.old }
    {
        self.version += 1;
        self.depth = 0;
        self.chain = Chain::bare(base);
    }
}
