//! delete: a record on the leaf; the book's removals rise.

ghost use Rattle.std.specs.Prelude.{◌≡◌, ◌-◌, ◌<◌, None, unwrap_or};
ghost use Rattle.bw_delta.specs.Entries.{at};
ghost use Rattle.bw_delta.specs.declared.chain.Delta.TheVariants as deltas;
ghost use Rattle.bw_step.specs.ProposalView.{delete_of};
ghost use Rattle.bw_law.specs.Effects.{TakesStep, with_record};
ghost use Rattle.bw_law.specs.Refusals.{refusal};
ghost use Rattle.bw_law.specs.Slots.{pairs_in};
ghost use Rattle.bw_table.specs.Answers.{fine_unless};
ghost use Rattle.bw_table.specs.SlotFacts.{MayGrowDeeper};

use crate::book::number_of;
use crate::slot::Slot;
use crate::steps::shared::check_found;
use crate::table::Table;
use bw_delta::{Delta, Spare};
use bw_keys::Key;
use bw_step::{Delete, Receipt, Refused};
use std::alloc::Allocator;

impl<A: Allocator + Copy> Table<A> {
    /// Why the deletion is refused.
    #[inline(always)]
    pub(super) fn check_delete(&self, step: &Delete<A>) -> Result<(), Refused>
        ensures { result ≡ fine_unless (refusal self.now (delete_of step.now)) }
    {
        let Some(slot) = self.slot(step.page) else {
            return Err(Refused::Absent);
        };
        check_found(slot, self.number(), step.seen, step.key)
    }

    /// Does a deletion that isn't refused.
    #[inline(always)]
    pub(super) fn delete(&mut self, step: Delete<A>) -> Receipt
        requires { refusal self.old (delete_of step) ≡ None }
        ensures { TakesStep self.old (delete_of step) result self.new }
    {
        let Delete {
            page,
            key,
            spare,
            ..
        } = step;
        let value = self.slots[page.0 as usize].delete(key, spare);
        self.book.removed += 1;
        Receipt::Deleted {
            number: number_of(self.book),
            key,
            value,
        }
    }
}

impl<A: Allocator + Copy> Slot<A> {
    #[inline(always)]
    fn delete(&mut self, key: Key, spare: Spare<A>) -> u64
        requires deeper { MayGrowDeeper self.old }
        requires count { 0 < self.old.count }
        ensures value { result ≡ unwrap_or (at key (pairs_in self.old)) 0 }
        ensures slot { self.new ≡ with_record (deltas.Delete key) (self.old.count - 1) self.old }
    {
        let value = self.find(key).unwrap_or(0);
        let count = self.count - 1;
        self.record(Delta::Delete(key), count, spare);
        value
    }
}
