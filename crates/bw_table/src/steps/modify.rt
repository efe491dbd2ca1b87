//! modify: a record on the leaf, whose pairs are as many as before; the book's modifications rise.

ghost use Rattle.std.specs.Prelude.{◌≡◌, ◌<◌, None, unwrap_or};
ghost use Rattle.bw_delta.specs.Entries.{at};
ghost use Rattle.bw_delta.specs.declared.chain.Delta.TheVariants as deltas;
ghost use Rattle.bw_step.specs.ProposalView.{modify_of};
ghost use Rattle.bw_law.specs.Effects.{TakesStep, with_record};
ghost use Rattle.bw_law.specs.Refusals.{refusal};
ghost use Rattle.bw_law.specs.Slots.{pairs_in};
ghost use Rattle.bw_table.specs.Answers.{fine_unless};
ghost use Rattle.bw_table.specs.SlotFacts.{MayGrowDeeper};

use crate::book::number_of;
use crate::slot::Slot;
use crate::steps::shared::check_found;
use crate::table::Table;
use bw_delta::{Delta, Spare};
use bw_keys::Key;
use bw_step::{Modify, Receipt, Refused};
use std::alloc::Allocator;

impl<A: Allocator + Copy> Table<A> {
    /// Why the modification is refused.
    pub(super) fn check_modify(&self, step: &Modify<A>) -> Result<(), Refused>
        ensures { result ≡ fine_unless (refusal self.now (modify_of step.now)) }
    {
        let Some(slot) = self.slot(step.page) else {
            return Err(Refused::Absent);
        };
        check_found(slot, self.number(), step.seen, step.key)
    }

    /// Does a modification that isn't refused.
    pub(super) fn modify(&mut self, step: Modify<A>) -> Receipt
        requires { refusal self.old (modify_of step) ≡ None }
        ensures { TakesStep self.old (modify_of step) result self.new }
    {
        let Modify {
            page,
            key,
            value,
            spare,
            ..
        } = step;
        let old = self.slots[page.0 as usize].modify(key, value, spare);
        self.book.modified += 1;
        Receipt::Modified {
            number: number_of(self.book),
            key,
            old,
            value,
        }
    }
}

impl<A: Allocator + Copy> Slot<A> {
    fn modify(&mut self, key: Key, value: u64, spare: Spare<A>) -> u64
        requires deeper { MayGrowDeeper self.old }
        ensures value { result ≡ unwrap_or (at key (pairs_in self.old)) 0 }
        ensures slot { self.new ≡ with_record (deltas.Modify key value) self.old.count self.old }
    {
        let old = self.find(key).unwrap_or(0);
        let count = self.count;
        self.record(Delta::Modify(key, value), count, spare);
        old
    }
}
