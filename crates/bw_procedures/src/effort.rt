//! When a call gives up.

ghost use Rattle.std.specs.Prelude.{◌≡◌, ◌+◌, ◌≤◌, ◌↔◌, IsTrue};
ghost use Rattle.bw_procedures.specs.Calls.{limit_of};
ghost use Rattle.bw_procedures.specs.Tending.{tending_cost};

use crate::steps::Steps;
use bw_keys::MAX_LEVEL;
use bw_step::Step;
use std::alloc::Allocator;

/// What tending one level costs at most where nobody else takes steps: a split or a merge with its
/// consolidations, one change that another call left unfinished in its way, and for each step of
/// both a refusal and the consolidation of a page that was too deep for it.
const LEVEL_COST: u64 = 16;

/// Returns the effort at which a call that begins now gives up.
#[inline(always)]
pub(crate) fn limit<A: Allocator + Copy, S: Steps<A, Step<A>>>(steps: &S) -> u64
    ensures { result ≡ limit_of (S.seen steps.now) }
{
    steps
        .effort()
        .saturating_add(u64::from(steps.config().tries))
}

/// Returns whether the worker has come to the limit.
#[inline(always)]
pub(crate) fn is_spent<A: Allocator + Copy, S: Steps<A, Step<A>>>(steps: &S, limit: u64) -> bool
    ensures { IsTrue result ↔ (limit ≤ (S.seen steps.now).effort) }
{
    steps.effort() >= limit
}

/// Returns whether the worker may spend `cost` before it comes to the limit.
pub(crate) fn covers<A: Allocator + Copy, S: Steps<A, Step<A>>>(
    steps: &S,
    limit: u64,
    cost: u64,
) -> bool
    ensures { IsTrue result ↔ ((S.seen steps.now).effort + cost ≤ limit) }
{
    match limit.checked_sub(steps.effort()) {
        Some(left) => cost <= left,
        None => false,
    }
}

/// Returns whether the worker may tend a page of the level, and one on each level above up to the
/// greatest, before it comes to the limit.
pub(crate) fn covers_tending<A: Allocator + Copy, S: Steps<A, Step<A>>>(
    steps: &S,
    limit: u64,
    level: u8,
) -> bool
    ensures { IsTrue result ↔ ((S.seen steps.now).effort + tending_cost level ≤ limit) }
{
    let levels = u64::from(MAX_LEVEL.saturating_sub(level)) + 1;
    covers(steps, limit, levels * LEVEL_COST)
}
