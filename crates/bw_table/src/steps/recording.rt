//! A look for a key and the record of its change, or a page made anew where it lies: each one step.

ghost use Rattle.std.specs.Prelude.{◌≡◌, ◌++◌, ◌∷◌, [], IfErr, is_none, option_map};
ghost use Rattle.bw_step.specs.ProposalView.{proposal_of};
ghost use Rattle.bw_step.specs.declared.action.Action.TheVariants as actions;
ghost use Rattle.bw_step.specs.declared.action.Reshaping.TheVariants as reshapings;
ghost use Rattle.bw_step.specs.declared.receipt.Receipt.TheVariants.{Looked};
ghost use Rattle.bw_law.specs.Refusals.{open_reasons, worn};
ghost use Rattle.bw_table.specs.Actions.{LacksSpare, Performs};
ghost use Rattle.bw_table.specs.Answers.{AnswersFirst};
ghost use Rattle.bw_table.specs.InPlaces.{step_for};

use crate::slot::Slot;
use crate::steps::shared::check_open;
use crate::table::Table;
use bw_delta::Spare;
use bw_keys::{Key, Pid, Version, Wished};
use bw_step::{
    Consolidate, CopyFault, Denied, Look, Performed, Receipt, Refused, Step, Unperformed, View,
};
use std::alloc::Allocator;

impl<A: Allocator + Copy> Table<A> {
    /// Looks the key up, and puts the record of the change that is wished on its leaf. It isn't
    /// done without the spare memory, where a page on the way to the leaf is in the middle of a
    /// split or a merge, and where the leaf takes no record. It is called, as `change_at_rest` is.
    pub(super) fn perform_record(
        &mut self,
        key: Key,
        wished: Wished,
        spare: Option<Spare<A>>,
    ) -> Result<Performed, Unperformed>
        ensures performs { Performs (actions.Record key wished) self.old result self.new }
        ensures memory { IfErr result (λ why. LacksSpare why (is_none spare)) }
    {
        let Some(spare) = spare else {
            return Err(Unperformed::Denied(Denied::NoMemory));
        };
        let Some(leaf) = self.leaf_at_rest(key) else {
            return Err(Unperformed::StepByStep);
        };
        let Some(look) = self.look(leaf.pid, key) else {
            unreachable!()
        };
        let receipt = match step_for(leaf, key, wished, look.found, spare) {
            None => receipt_of(key, look),
            Some(step) => match self.install(step) {
                Ok(receipt) => receipt,
                Err(_) => return Err(Unperformed::StepByStep),
            },
        };
        Ok(self.performed(leaf.pid, key, receipt))
    }

    /// Consolidates the page where it lies, if it still has the version that was seen. No memory is
    /// taken for a step that is refused.
    pub(super) fn perform_consolidation(
        &mut self,
        alloc: A,
        page: Pid,
        seen: Version,
    ) -> Result<Performed, Unperformed>
        ensures { Performs (actions.Reshape page seen reshapings.Consolidate)
            self.old result self.new }
    {
        let Some(slot) = self.slot(page) else {
            return Err(Unperformed::Denied(Denied::Refused(Refused::Absent)));
        };
        if let Err(reason) = may_be_made_anew(slot, seen) {
            return Err(Unperformed::Denied(Denied::Refused(reason)));
        }
        let key = slot.low();
        let base = match self.consolidated_page(alloc, page, seen) {
            Ok(base) => base,
            Err(CopyFault::NoMemory) => return Err(Unperformed::Denied(Denied::NoMemory)),
            Err(CopyFault::Absent | CopyFault::Stale) => unreachable!(),
        };
        let receipt = self.consolidate(Consolidate { page, seen, base });
        Ok(self.performed(page, key, receipt))
    }
}

/// Why the page can't be consolidated, whatever its entries.
#[inline(always)]
fn may_be_made_anew<A: Allocator + Copy>(slot: &Slot<A>, seen: Version) -> Result<(), Refused>
    ensures { AnswersFirst (open_reasons slot.now seen.0 ++ worn (slot.now ∷ []) ∷ []) result }
{
    check_open(slot, seen)?;
    if slot.is_worn() {
        return Err(Refused::Worn);
    }
    Ok(())
}

/// The step that carries out the wish for a key of the leaf that has this value, or none. No step
/// where there is nothing to do.
#[inline(always)]
fn step_for<A: Allocator + Copy>(
    leaf: View,
    key: Key,
    wished: Wished,
    found: Option<u64>,
    spare: Spare<A>,
) -> Option<Step<A>>
    ensures { option_map proposal_of result ≡ step_for leaf.pid.0 leaf.version.0 key wished found }
{
    match (wished, found) {
        (Wished::Put(_), Some(_)) | (Wished::Delete, None) => None,
        _ => {
            let is_there = found.is_some();
            Some(Step::of_wish(leaf.pid, leaf.version, key, wished, is_there, spare))
        }
    }
}

/// The receipt of a look for the key.
#[inline(always)]
fn receipt_of(key: Key, look: Look) -> Receipt
    ensures { result ≡ Looked look.at key look.found }
{
    Receipt::Looked {
        at: look.at,
        key,
        found: look.found,
    }
}
