//! What a call wishes of one key, where its worker goes to the key's leaf by single steps.

ghost use Rattle.std.specs.Prelude.{◌≡◌};
ghost use Rattle.bw_step.specs.ProposalView.{proposal_of};
ghost use Rattle.bw_step.specs.Steps.{ChangesShape, IsReceiptOf};
ghost use Rattle.bw_step.specs.declared.receipt.Receipt.{Receipt};
ghost use Rattle.bw_procedures.specs.Writing.{had_by, keep_for, IsReceiptFor};

use crate::steps::Keep;
use bw_delta::Spare;
use bw_keys::{Key, Wished};
use bw_step::{Receipt, Step, View};
use std::alloc::Allocator;

/// Which looks are added to the trail: those that find the wish true.
#[inline(always)]
pub(crate) fn keep_of(wished: Wished) -> Keep
    ensures { result ≡ keep_for wished }
{
    match wished {
        Wished::Put(_) => Keep::IfFound,
        Wished::Set(_) => Keep::Never,
        Wished::Delete => Keep::IfNone,
    }
}

/// The step by which the wish comes true, at the key's leaf, where this was found.
#[tactic(auto, using(crate::proofs::Changing::comes_true, crate::proofs::Changing::keeps_shape))]
#[inline(always)]
pub(crate) fn step_for<A: Allocator + Copy>(
    key: Key,
    wished: Wished,
    view: View,
    found: Option<u64>,
    spare: Spare<A>,
) -> Step<A>
    ensures change { ChangesShape (proposal_of result) → ⊥ }
    ensures made { (receipt : Receipt) → IsReceiptOf (proposal_of result) receipt
        → IsReceiptFor key wished receipt }
{
    Step::of_wish(view.pid, view.version, key, wished, found.is_some(), spare)
}

/// Returns what the key had before the wish came true by this receipt.
#[inline(always)]
pub(crate) fn had(wished: Wished, receipt: Receipt) -> Option<u64>
    ensures { result ≡ had_by wished receipt }
{
    match (wished, receipt) {
        (Wished::Put(_), Receipt::Looked { found, .. }) => found,
        (Wished::Set(_), Receipt::Modified { old, .. }) => Some(old),
        (Wished::Delete, Receipt::Deleted { value, .. }) => Some(value),
        _ => None,
    }
}
