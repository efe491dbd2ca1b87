//! The proposal of a step, within the effort of a call.

ghost use Rattle.std.specs.Prelude.{◌≡◌, ◌<◌, IfOk, OnOk};
ghost use Rattle.bw_step.specs.ProposalView.{proposal_of};
ghost use Rattle.bw_step.specs.Steps.{ChangesShape};
ghost use Rattle.bw_procedures.specs.Calls.{ReshapesWithin, AnswerCounts, fault_in};
ghost use Rattle.bw_procedures.specs.Calls.{Offered};

use crate::effort::is_spent;
use crate::fault::Fault;
use crate::steps::Steps;
use bw_step::{Denied, Receipt, Refused, Step};
use std::alloc::Allocator;

/// What a proposal came to.
#[derive(Clone, Copy)]
pub(crate) enum Answer {
    Accepted(Receipt),
    Refused(Refused),
}

/// Proposes a step. No refusal is a fault.
#[inline(always)]
pub(crate) fn offer<A: Allocator + Copy, S: Steps<A, Step<A>>>(
    steps: &mut S,
    limit: u64,
    step: Step<A>,
) -> Result<Answer, Fault>
    ensures follows { S.follows steps.old steps.new }
    ensures shape { ChangesShape (proposal_of step)
        → ReshapesWithin 1 limit result (S.seen steps.old) (S.seen steps.new) }
    ensures change { (ChangesShape (proposal_of step) → ⊥)
        → Offered (proposal_of step) limit result (S.seen steps.old) (S.seen steps.new) }
    ensures within { OnOk result ((S.seen steps.old).effort < limit) }
    ensures counts { IfOk result
        (λ answer. AnswerCounts answer (S.seen steps.old) (S.seen steps.new)) }
{
    if is_spent(steps, limit) {
        return Err(Fault::Contended);
    }
    match steps.install(step) {
        Ok(receipt) => Ok(Answer::Accepted(receipt)),
        Err(Denied::Refused(reason)) => Ok(Answer::Refused(reason)),
        Err(Denied::NoMemory) => Err(Fault::NoMemory),
    }
}

/// Returns the fault that a refusal is, if it is one.
pub(crate) fn fault_of(reason: Refused) -> Option<Fault>
    ensures { result ≡ fault_in reason }
{
    match reason {
        Refused::TableFull => Some(Fault::TableFull),
        Refused::TooTall => Some(Fault::TooTall),
        Refused::Worn => Some(Fault::Worn),
        _ => None,
    }
}

/// Proposes a step that changes the tree's shape. Some refusals are faults.
pub(crate) fn reshape<A: Allocator + Copy, S: Steps<A, Step<A>>>(
    steps: &mut S,
    limit: u64,
    step: Step<A>,
) -> Result<Answer, Fault>
    requires { ChangesShape (proposal_of step) }
    ensures follows { S.follows steps.old steps.new }
    ensures reshapes { ReshapesWithin 1 limit result (S.seen steps.old) (S.seen steps.new) }
    ensures within { OnOk result ((S.seen steps.old).effort < limit) }
{
    let answer = offer(steps, limit, step)?;
    match answer {
        Answer::Accepted(_) => Ok(answer),
        Answer::Refused(reason) => match fault_of(reason) {
            Some(fault) => Err(fault),
            None => Ok(answer),
        },
    }
}
