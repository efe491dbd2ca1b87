//! Every change of a tree is a step. Each kind of step has a module of its own: why it is refused, what
//! it does to the slots, and its receipt.

ghost use Rattle.std.specs.Prelude.{◌≡◌, ◌↔◌, None, Some, IsOk, IfOk, IfErr, OnErr};
ghost use Rattle.bw_step.specs.ProposalView.{proposal_of};
ghost use Rattle.bw_law.specs.Refusals.{refusal};
ghost use Rattle.bw_law.specs.Effects.{TakesStep};
ghost use Rattle.bw_table.specs.Answers.{fine_unless};

mod appending;
mod at_once;
mod consolidate;
mod delete;
mod grow;
mod halving;
mod insert;
mod mark;
mod merge;
mod merging;
mod modify;
mod perform;
mod recording;
mod room;
mod shared;
mod split;
mod term_add;
mod term_delete;

use crate::table::Table;
use bw_step::{Receipt, Refused, Step};
use std::alloc::Allocator;

impl<A: Allocator + Copy> Table<A> {
    /// Returns what `install` would, and changes nothing.
    #[inline(always)]
    pub fn check(&self, step: &Step<A>) -> Result<(), Refused>
        ensures { result ≡ fine_unless (refusal self.now (proposal_of step.now)) }
    {
        match step {
            Step::Insert(step) => self.check_insert(step),
            Step::Delete(step) => self.check_delete(step),
            Step::Modify(step) => self.check_modify(step),
            Step::Consolidate(step) => self.check_consolidate(step),
            Step::Split(step) => self.check_split(step),
            Step::TermAdd(step) => self.check_term_add(step),
            Step::Grow(step) => self.check_grow(step),
            Step::Mark(step) => self.check_mark(step),
            Step::Merge(step) => self.check_merge(step),
            Step::TermDelete(step) => self.check_term_delete(step),
        }
    }

    /// Takes the step and returns its receipt, or drops the step and returns the first reason to
    /// refuse it. It takes no memory.
    #[inline(always)]
    pub fn install(&mut self, step: Step<A>) -> Result<Receipt, Refused>
        ensures accepted { IsOk result ↔ (refusal self.old (proposal_of step) ≡ None) }
        ensures taken { IfOk result (λ receipt.
            TakesStep self.old (proposal_of step) receipt self.new) }
        ensures refused { IfErr result (λ reason.
            refusal self.old (proposal_of step) ≡ Some reason) }
        ensures unchanged { OnErr result (self.new ≡ self.old) }
    {
        self.check(&step)?;
        Ok(match step {
            Step::Insert(step) => self.insert(step),
            Step::Delete(step) => self.delete(step),
            Step::Modify(step) => self.modify(step),
            Step::Consolidate(step) => self.consolidate(step),
            Step::Split(step) => self.split(step),
            Step::TermAdd(step) => self.term_add(step),
            Step::Grow(step) => self.grow(step),
            Step::Mark(step) => self.mark(step),
            Step::Merge(step) => self.merge(step),
            Step::TermDelete(step) => self.term_delete(step),
        })
    }
}
