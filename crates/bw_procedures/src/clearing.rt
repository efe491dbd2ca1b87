//! The parts of the removal of a range: one leaf's keys, and one key.

ghost use Rattle.std.specs.Prelude.{◌+◌, ◌<◌, ◌≤◌, ◌^◌, length, IfSome, IsTrue};
ghost use Rattle.bw_keys.specs.Ranges.{end_of, key_count};
ghost use Rattle.bw_procedures.specs.Seen.{Grows};
ghost use Rattle.bw_procedures.specs.Calls.{Earned};
ghost use Rattle.bw_procedures.specs.Clearing.{RemovesBelow, RemovesKey};

use crate::reply::{Cleared, Done};
use crate::steps::Steps;
use crate::writing::write;
use bw_keys::{Fence, Key, Wished};
use bw_step::Step;
use std::alloc::Allocator;

/// Does nothing: that a fence lies past no more than all keys, a proof learns by the fence's cases.
#[inline(always)]
pub(crate) fn end_among_keys(high: Fence)
    ensures { end_of high ≤ key_count }
{
    match high {
        Fence::Key(_) | Fence::Top => (),
    }
}

/// Whether the count has room for the removal of each of the pairs.
pub(crate) fn has_room(removed: u64, pairs: &[(Key, u64)]) -> bool
    ensures { IsTrue result → removed + length pairs.now < 2 ^ 64 }
{
    removed.checked_add(pairs.len() as u64).is_some()
}

/// Deletes the keys of the pairs, in their order, as long as they lie below the high.
#[tactic(auto, using(crate::proofs::Removals::removes_none))]
pub(crate) fn remove_below<A: Allocator + Copy, S: Steps<A, Step<A>>>(
    steps: &mut S,
    pairs: &[(Key, u64)],
    high: Fence,
) -> Cleared
    ensures follows { S.follows steps.old steps.new }
    ensures grows { Grows (S.seen steps.old) (S.seen steps.new) }
    ensures removes { RemovesBelow (end_of high) pairs.now result.removed result.fault
        (S.seen steps.old) (S.seen steps.new) }
    ensures few { result.removed ≤ length pairs.now }
    ensures fault { IfSome result.fault (Earned (S.seen steps.old) (S.seen steps.new)) }
{
    let mut removed = 0;
    for pair in pairs {
        if !high.is_above(pair.0) {
            return Cleared {
                removed,
                fault: None,
            };
        }
        let one = remove(steps, pair.0);
        removed += one.removed;
        if one.fault.is_some() {
            return Cleared {
                removed,
                fault: one.fault,
            };
        }
    }
    Cleared {
        removed,
        fault: None,
    }
}

/// Deletes one key, if it has a value.
fn remove<A: Allocator + Copy, S: Steps<A, Step<A>>>(steps: &mut S, key: Key) -> Cleared
    ensures follows { S.follows steps.old steps.new }
    ensures grows { Grows (S.seen steps.old) (S.seen steps.new) }
    ensures removes { RemovesKey key result.removed result.fault
        (S.seen steps.old) (S.seen steps.new) }
    ensures fault { IfSome result.fault (Earned (S.seen steps.old) (S.seen steps.new)) }
{
    match write(steps, key, Wished::Delete) {
        Ok(Done { reply: had, fault }) => Cleared {
            removed: match had {
                Some(_) => 1,
                None => 0,
            },
            fault,
        },
        Err(fault) => Cleared {
            removed: 0,
            fault: Some(fault),
        },
    }
}
