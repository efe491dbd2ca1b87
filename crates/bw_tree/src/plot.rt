//! What lies under the lock of a tree.

ghost use Rattle.std.specs.Prelude.{◌≡◌, ◌↔◌, None, IsTrue, IsOk, IfOk, IfErr, OnOk, OnErr};
ghost use Rattle.bw_law.specs.Laws.{MapAfter};
ghost use Rattle.bw_law.specs.Refusals.{refusal};
ghost use Rattle.bw_step.specs.Actions.{Reports};
ghost use Rattle.bw_step.specs.ProposalView.{proposal_of};
ghost use Rattle.bw_step.specs.Steps.{IsReceiptOf};
ghost use Rattle.bw_table.specs.Actions.{IsPerformed, IsWhyNot};
ghost use Rattle.bw_tree.specs.Ranges.{ActsIn, IsWhyRefused, LiesIn, StaysIn};
ghost use Rattle.bw_tree.specs.Shares.{CountsIn, CountsPerformed};
ghost use Rattle.bw_tree.specs.Trees.{Leads};

use crate::booked::Booked;
use crate::keys::Keys;
use crate::made_by::MadeBy;
use crate::share::Share;
use bw_delta::Spare;
use bw_step::{Action, Performed, Receipt, Refused, Step, Unperformed};
use std::alloc::Allocator;
use std::sync::ledger::Ledger;

/// A booked table and the range of the keys that it takes. All its pairs lie there.
#[derive(Drop)]
pub struct Plot<A: Allocator + Copy, I: MadeBy, D: Ledger, K: Keys> {
    pub booked: Booked<A, I, D, K>,
    pub range: K,
    ghost within: { LiesIn (K.range range) booked.slots },
}

impl<A: Allocator + Copy, I: MadeBy, D: Ledger, K: Keys> Plot<A, I, D, K> {
    /// Takes the step as `Booked::install` does. The change of a key that isn't taken is refused as
    /// `OutOfRange`.
    #[inline(always)]
    pub fn install(&mut self, share: &mut Share<I, D>, step: Step<A>) -> Result<Receipt, Refused>
        ensures accepted { IsOk result ↔ StaysIn (K.range self.old.range) (proposal_of step)
            × (refusal self.old.booked (proposal_of step) ≡ None) }
        ensures taken { IfOk result
            (Leads self.old.booked (proposal_of step) self.new.booked) }
        ensures reported { IfOk result (IsReceiptOf (proposal_of step)) }
        ensures map { OnOk result (MapAfter self.old.booked (proposal_of step)) }
        ensures refused { IfErr result
            (IsWhyRefused (K.range self.old.range) self.old.booked (proposal_of step)) }
        ensures unchanged { OnErr result (self.new.booked ≡ self.old.booked) }
        ensures range { self.new.range ≡ self.old.range }
        ensures share { CountsIn share.old share.new result }
    {
        if !self.stays_in(&step) {
            return Err(Refused::OutOfRange);
        }
        self.booked.install(share, step)
    }

    /// Performs the action as `Booked::perform` does. It isn't performed for a key that isn't taken.
    #[inline(always)]
    pub fn perform(
        &mut self,
        alloc: A,
        share: &mut Share<I, D>,
        action: Action,
        spare: Option<Spare<A>>,
    ) -> Result<Performed, Unperformed>
        ensures inside { IsOk result → ActsIn (K.range self.old.range) action }
        ensures done { IfOk result (IsPerformed self.old.booked action self.new.booked) }
        ensures reports { IfOk result (Reports action) }
        ensures why { ActsIn (K.range self.old.range) action
            → IfErr result (IsWhyNot self.old.booked action) }
        ensures unchanged { OnErr result (self.new.booked ≡ self.old.booked) }
        ensures range { self.new.range ≡ self.old.range }
        ensures share { CountsPerformed share.old share.new result }
    {
        if !self.acts_in(action) {
            return Err(Unperformed::StepByStep);
        }
        self.booked.table();
        self.booked.perform(alloc, share, action, spare)
    }

    /// Reports whether the key that the step changes is taken, if it changes one.
    #[inline(always)]
    fn stays_in(&self, step: &Step<A>) -> bool
        ensures { IsTrue result ↔ StaysIn (K.range self.now.range) (proposal_of step.now) }
    {
        match step {
            Step::Insert(step) => self.range.take(step.key),
            Step::Delete(step) => self.range.take(step.key),
            Step::Modify(step) => self.range.take(step.key),
            Step::Consolidate(_)
            | Step::Split(_)
            | Step::TermAdd(_)
            | Step::Grow(_)
            | Step::Mark(_)
            | Step::Merge(_)
            | Step::TermDelete(_) => true,
        }
    }

    /// Reports whether the key that the action changes is taken, if it changes one.
    #[inline(always)]
    fn acts_in(&self, action: Action) -> bool
        ensures { IsTrue result ↔ ActsIn (K.range self.now.range) action }
    {
        match action {
            Action::Change { key, .. } | Action::Record { key, .. } => self.range.take(key),
            Action::Reshape { .. }
            | Action::AddTerm { .. }
            | Action::Cut { .. }
            | Action::Post { .. } => true,
        }
    }
}
