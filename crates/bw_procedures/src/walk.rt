//! The walk to a page: right by the side links, down by the routes, and again from the root where a
//! place is gone.

ghost use Rattle.std.specs.Prelude.{◌≡◌, IfOk, IfErr};
ghost use Rattle.bw_procedures.specs.Facts.{quiet, on_the_way};
ghost use Rattle.bw_procedures.specs.Calls.{OnlySpends, CostsIfNone, IsAtLevel};
ghost use Rattle.bw_procedures.specs.Calls.{FindsFresh, IsEarned};

use crate::effort::is_spent;
use crate::fault::Fault;
use crate::steps::Steps;
use bw_keys::Key;
use bw_step::{Go, Place, Step, View};
use std::alloc::Allocator;

/// Goes on from a place to the page on the goal's level whose range holds the key. None where a
/// place was gone.
#[tactic(auto, using(crate::proofs::Spending::spends_visited))]
#[inline(always)]
pub(crate) fn descend<A: Allocator + Copy, S: Steps<A, Step<A>>>(
    steps: &mut S,
    start: Place,
    key: Key,
    goal: u8,
) -> Option<View>
    ensures follows { S.follows steps.old steps.new }
    ensures seen { OnlySpends (S.seen steps.old) (S.seen steps.new) }
    ensures gone { CostsIfNone result (S.seen steps.old) (S.seen steps.new) }
    ensures level { IsAtLevel goal result }
    ensures calm { S.calm steps.old (on_the_way key goal start)
        → FindsFresh (S.calm steps.new) key goal result }
    ensures no_effort { S.calm steps.old (on_the_way key goal start)
        → (S.seen steps.new).effort ≡ (S.seen steps.old).effort }
{
    let mut place = start;
    'down: loop {
        match steps.visit(place, key, goal).go {
            Go::Gone => return None,
            Go::Here(view) => return Some(view),
            Go::Right(next) => place = next,
            Go::Down(next) => place = next,
        }
    }
}

/// Finds the leaf whose range holds the key, at once where the worker can. None where a place on
/// the way was gone.
#[inline(always)]
pub(crate) fn leaf<A: Allocator + Copy, S: Steps<A, Step<A>>>(
    steps: &mut S,
    key: Key,
) -> Option<View>
    ensures follows { S.follows steps.old steps.new }
    ensures seen { OnlySpends (S.seen steps.old) (S.seen steps.new) }
    ensures gone { CostsIfNone result (S.seen steps.old) (S.seen steps.new) }
    ensures level { IsAtLevel 0 result }
    ensures calm { S.calm steps.old quiet → FindsFresh (S.calm steps.new) key 0 result }
    ensures no_effort { S.calm steps.old quiet
        → (S.seen steps.new).effort ≡ (S.seen steps.old).effort }
{
    match steps.leaf_at_once(key) {
        Some(view) => Some(view),
        None => {
            let root = steps.root();
            descend(steps, root, key, 0)
        }
    }
}

/// Finds the page on the goal's level whose range holds the key. None where the tree isn't so high.
pub(crate) fn walk<A: Allocator + Copy, S: Steps<A, Step<A>>>(
    steps: &mut S,
    limit: u64,
    key: Key,
    goal: u8,
) -> Result<Option<View>, Fault>
    ensures follows { S.follows steps.old steps.new }
    ensures seen { OnlySpends (S.seen steps.old) (S.seen steps.new) }
    ensures level { IfOk result (IsAtLevel goal) }
    ensures fault { IfErr result (IsEarned limit (S.seen steps.old) (S.seen steps.new)) }
{
    'again: loop {
        let root = steps.root();
        if goal > root.level {
            return Ok(None);
        }
        if is_spent(steps, limit) {
            return Err(Fault::Contended);
        }
        if let Some(view) = descend(steps, root, key, goal) {
            return Ok(Some(view));
        }
    }
}
