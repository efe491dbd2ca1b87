//! insert: a record on the leaf; the book's insertions rise.

ghost use Rattle.std.specs.Prelude.{◌≡◌, suc, ◌+◌, ◌^◌, ◌<◌, None};
ghost use Rattle.bw_delta.specs.declared.chain.Delta.TheVariants as deltas;
ghost use Rattle.bw_step.specs.ProposalView.{insert_of};
ghost use Rattle.bw_law.specs.Effects.{TakesStep, with_record};
ghost use Rattle.bw_law.specs.Refusals.{refusal, insert_reasons};
ghost use Rattle.bw_table.specs.Answers.{AnswersFirst, fine_unless};
ghost use Rattle.bw_table.specs.SlotFacts.{MayGrowDeeper};

use crate::book::number_of;
use crate::slot::Slot;
use crate::steps::shared::{check_change, check_leaf};
use crate::table::Table;
use bw_delta::{Delta, Spare};
use bw_keys::Key;
use bw_step::{Insert, Receipt, Refused};
use std::alloc::Allocator;

impl<A: Allocator + Copy> Table<A> {
    /// Why the insertion is refused.
    #[inline(always)]
    pub(super) fn check_insert(&self, step: &Insert<A>) -> Result<(), Refused>
        ensures { result ≡ fine_unless (refusal self.now (insert_of step.now)) }
    {
        let Some(slot) = self.slot(step.page) else {
            return Err(Refused::Absent);
        };
        may_insert(slot, self.number(), step)
    }

    /// Does an insertion that isn't refused.
    #[inline(always)]
    pub(super) fn insert(&mut self, step: Insert<A>) -> Receipt
        requires { refusal self.old (insert_of step) ≡ None }
        ensures { TakesStep self.old (insert_of step) result self.new }
    {
        let Insert {
            page,
            key,
            value,
            spare,
            ..
        } = step;
        self.slots[page.0 as usize].insert(key, value, spare);
        self.book.inserted += 1;
        Receipt::Inserted {
            number: number_of(self.book),
            key,
            value,
        }
    }
}

/// Why the insertion is refused on the slot of its page, at the book's number.
#[inline(always)]
fn may_insert<A: Allocator + Copy>(
    slot: &Slot<A>,
    number: u64,
    step: &Insert<A>,
) -> Result<(), Refused>
    ensures { AnswersFirst (insert_reasons slot.now number step.now.seen.0 step.now.key) result }
{
    check_leaf(slot, step.seen, step.key)?;
    if let Some(value) = slot.find(step.key) {
        return Err(Refused::Present(value));
    }
    check_change(slot, number)
}

impl<A: Allocator + Copy> Slot<A> {
    #[inline(always)]
    fn insert(&mut self, key: Key, value: u64, spare: Spare<A>)
        requires deeper { MayGrowDeeper self.old }
        requires count { self.old.count + 1 < 2 ^ 64 }
        ensures { self.new ≡ with_record (deltas.Insert key value) (suc self.old.count) self.old }
    {
        let count = self.count + 1;
        self.record(Delta::Insert(key, value), count, spare);
    }
}
