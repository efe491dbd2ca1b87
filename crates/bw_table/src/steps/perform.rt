//! What is done in one hold of a table's lock, by one door.

ghost use Rattle.std.specs.Prelude.{◌≡◌, true, IfOk, IfErr, OnErr, is_none};
ghost use Rattle.bw_law.specs.Tables.{slot_at};
ghost use Rattle.bw_step.specs.Actions.{takes_spare};
ghost use Rattle.bw_table.specs.Actions.{IsPerformed, IsWhyNot, LacksSpare};

use crate::table::Table;
use bw_delta::Spare;
use bw_keys::{Key, Pid};
use bw_step::{Action, Performed, Receipt, Reshaping, Unperformed};
use std::alloc::Allocator;

impl<A: Allocator + Copy> Table<A> {
    /// Performs the action, by all its steps, or returns why not and changes nothing. The record of
    /// a change and a term take the spare memory: without it they aren't performed. Pages made anew
    /// lie in `alloc`.
    #[inline(always)]
    pub fn perform(
        &mut self,
        alloc: A,
        action: Action,
        spare: Option<Spare<A>>,
    ) -> Result<Performed, Unperformed>
        ensures done { IfOk result (IsPerformed self.old action self.new) }
        ensures why { IfErr result (IsWhyNot self.old action) }
        ensures unchanged { OnErr result (self.new ≡ self.old) }
        ensures memory { takes_spare action ≡ true
            → IfErr result (λ why. LacksSpare why (is_none spare)) }
    {
        match action {
            Action::Change { key, wished } => self.perform_change(key, wished),
            Action::Record { key, wished } => self.perform_record(key, wished, spare),
            Action::Reshape { page, seen, how } => match how {
                Reshaping::Consolidate => self.perform_consolidation(alloc, page, seen),
                Reshaping::Halve => self.perform_halving(alloc, page, seen),
            },
            Action::AddTerm { child } => self.perform_term(child, spare),
            Action::Cut { page, seen } => self.perform_cut(page, seen),
            Action::Post { child } => self.perform_post(child),
        }
    }

    /// What was done on a page, with its key.
    #[inline(always)]
    pub(super) fn performed(&self, page: Pid, key: Key, receipt: Receipt) -> Performed
        ensures page { result.page ≡ page }
        ensures key { result.key ≡ key }
        ensures receipt { result.receipt ≡ receipt }
        ensures count { result.count ≡ (slot_at self.now page.0).count }
        ensures depth { result.depth ≡ (slot_at self.now page.0).depth }
    {
        let (count, depth) = match self.slot(page) {
            Some(slot) => (slot.count, slot.depth),
            None => (0, 0),
        };
        Performed {
            page,
            key,
            receipt,
            count,
            depth,
        }
    }
}
