//! A page made anew, without records above its base.

ghost use Rattle.std.specs.Prelude.{IfOk, IfSome};
ghost use Rattle.bw_step.specs.ProposalView.{proposal_of};
ghost use Rattle.bw_step.specs.Steps.{ChangesShape};
ghost use Rattle.bw_procedures.specs.Calls.{ReshapesWithin, Reads, ConsolidatesWithin};

use crate::effort::is_spent;
use crate::fault::Fault;
use crate::offer::{Answer, offer};
use crate::steps::Steps;
use bw_delta::NoMemory;
use bw_step::{Action, Consolidate, CopyFault, Denied, Reshaping, Step, Unperformed, View};
use std::alloc::Allocator;

/// Makes the step that consolidates the page as it was seen. None where the page has changed since,
/// or is gone.
pub(crate) fn consolidation<A: Allocator + Copy, S: Steps<A, Step<A>>>(
    steps: &mut S,
    view: View,
) -> Result<Option<Step<A>>, NoMemory>
    ensures follows { S.follows steps.old steps.new }
    ensures reads { Reads result (S.seen steps.old) (S.seen steps.new) }
    ensures shape { IfOk result (λ step. IfSome step (λ it. ChangesShape (proposal_of it))) }
{
    let base = match steps.consolidated_page(view.pid, view.version) {
        Ok(base) => base,
        Err(CopyFault::NoMemory) => return Err(NoMemory),
        Err(CopyFault::Absent | CopyFault::Stale) => return Ok(None),
    };
    Ok(Some(Step::Consolidate(Consolidate {
        page: view.pid,
        seen: view.version,
        base,
    })))
}

/// Consolidates the page as it was seen, and returns whether that was accepted. Where it wasn't,
/// the new page is dropped.
pub(crate) fn consolidate<A: Allocator + Copy, S: Steps<A, Step<A>>>(
    steps: &mut S,
    limit: u64,
    view: View,
) -> Result<bool, Fault>
    ensures follows { S.follows steps.old steps.new }
    ensures reshapes { ReshapesWithin 1 limit result (S.seen steps.old) (S.seen steps.new) }
{
    match consolidate_in_place(steps, limit, view)? {
        Some(is_accepted) => Ok(is_accepted),
        None => consolidate_by_copy(steps, limit, view),
    }
}

/// Consolidates the page where it lies, if the worker can and has effort left.
fn consolidate_in_place<A: Allocator + Copy, S: Steps<A, Step<A>>>(
    steps: &mut S,
    limit: u64,
    view: View,
) -> Result<Option<bool>, Fault>
    ensures follows { S.follows steps.old steps.new }
    ensures consolidates { ConsolidatesWithin limit result (S.seen steps.old) (S.seen steps.new) }
{
    if is_spent(steps, limit) {
        return Ok(None);
    }
    let action = Action::Reshape {
        page: view.pid,
        seen: view.version,
        how: Reshaping::Consolidate,
    };
    match steps.perform(action) {
        Ok(_) => Ok(Some(true)),
        Err(Unperformed::Denied(Denied::Refused(_))) => Ok(Some(false)),
        Err(Unperformed::Denied(Denied::NoMemory)) => Err(Fault::NoMemory),
        Err(Unperformed::StepByStep) => Ok(None),
    }
}

/// Makes the page anew from a copy, and proposes it.
fn consolidate_by_copy<A: Allocator + Copy, S: Steps<A, Step<A>>>(
    steps: &mut S,
    limit: u64,
    view: View,
) -> Result<bool, Fault>
    ensures follows { S.follows steps.old steps.new }
    ensures reshapes { ReshapesWithin 1 limit result (S.seen steps.old) (S.seen steps.new) }
{
    let Some(step) = consolidation(steps, view)? else {
        return Ok(false);
    };
    match offer(steps, limit, step)? {
        Answer::Accepted(_) => Ok(true),
        Answer::Refused(_) => Ok(false),
    }
}
