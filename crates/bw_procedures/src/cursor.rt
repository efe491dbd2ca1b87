//! The pairs of one leaf, from a key on.

ghost use Rattle.std.specs.Prelude.{◌≡◌, ◌≤◌, None, Ok, IfOk};
ghost use Rattle.bw_keys.specs.Ranges.{end_of, key_count};
ghost use Rattle.bw_delta.specs.Entries.{from};
ghost use Rattle.bw_delta.specs.Pairs.{pairs};
ghost use Rattle.bw_delta.specs.Sound.{IsSound};
ghost use Rattle.bw_procedures.specs.Facts.{Fact, quiet, ShowsCopy, IsLeafAround};
ghost use Rattle.bw_procedures.specs.Calls.{Reads, IsAnswered};
ghost use Rattle.bw_procedures.specs.Slices.{ShowsRead, IsReadFrom, end_of_slice};

use crate::reply::Slice;
use crate::steps::Steps;
use crate::walk::leaf;
use bw_chain::{append_pairs, fences, is_leaf};
use bw_delta::{Chain, Fences, NoMemory};
use bw_keys::{Fence, Key};
use bw_step::{CopyFault, Step};
use std::alloc::{Allocator, Global};

/// Reads the pairs of the key's leaf from the key on, in one step where the worker can, and otherwise
/// from a copy of the leaf. None where a walk or a copy came to nothing.
pub(crate) fn read_page<A: Allocator + Copy, S: Steps<A, Step<A>>>(
    steps: &mut S,
    machine: Global,
    key: Key,
) -> Result<Option<Slice>, NoMemory>
    ensures follows { S.follows steps.old steps.new }
    ensures reads { Reads result (S.seen steps.old) (S.seen steps.new) }
    ensures shows { ShowsRead (S.shows steps.new) key result }
    ensures slice { IsReadFrom key result }
    ensures calm { S.calm steps.old quiet → IsAnswered result }
    ensures no_effort { S.calm steps.old quiet
        → (S.seen steps.new).effort ≡ (S.seen steps.old).effort }
{
    if let Some(slice) = read_leaf(steps, machine, key)? {
        return Ok(Some(slice));
    }
    copy_leaf(steps, machine, key)
}

/// Reads the pairs of the key's leaf from the key on in one step. None where the worker can't.
fn read_leaf<A: Allocator + Copy, S: Steps<A, Step<A>>>(
    steps: &mut S,
    machine: Global,
    key: Key,
) -> Result<Option<Slice>, NoMemory>
    ensures follows { S.follows steps.old steps.new }
    ensures seen { S.seen steps.new ≡ S.seen steps.old }
    ensures shows { ShowsRead (S.shows steps.new) key result }
    ensures slice { IsReadFrom key result }
    ensures unanswered { result ≡ Ok None
        → (fact : Fact) → S.calm steps.old fact → S.calm steps.new fact }
{
    let mut pairs = Vec::new(machine);
    let Some(high) = steps.read_at_once(key, Fence::Top, usize::MAX, &mut pairs)? else {
        return Ok(None);
    };
    let next = next_leaf(high);
    Ok(Some(Slice { pairs, next }))
}

/// Walks to the key's leaf, and copies its pairs from the key on. None where the walk or the copy
/// came to nothing.
fn copy_leaf<A: Allocator + Copy, S: Steps<A, Step<A>>>(
    steps: &mut S,
    machine: Global,
    key: Key,
) -> Result<Option<Slice>, NoMemory>
    ensures follows { S.follows steps.old steps.new }
    ensures reads { Reads result (S.seen steps.old) (S.seen steps.new) }
    ensures shows { ShowsRead (S.shows steps.new) key result }
    ensures slice { IsReadFrom key result }
    ensures calm { S.calm steps.old quiet → IsAnswered result }
    ensures no_effort { S.calm steps.old quiet
        → (S.seen steps.new).effort ≡ (S.seen steps.old).effort }
{
    let Some(view) = leaf(steps, key) else {
        return Ok(None);
    };
    match steps.copy_page(view.pid, view.version) {
        Ok(chain) => cut(steps, machine, key, &chain),
        Err(CopyFault::NoMemory) => Err(NoMemory),
        Err(CopyFault::Absent) => Ok(None),
        Err(CopyFault::Stale) => Ok(None),
    }
}

/// The part of a copy from the key on. None where it isn't the key's leaf, which costs effort.
#[tactic(auto, using(crate::proofs::Slicing::is_slice))]
fn cut<A: Allocator + Copy, S: Steps<A, Step<A>>>(
    steps: &mut S,
    machine: Global,
    key: Key,
    chain: &Chain<A>,
) -> Result<Option<Slice>, NoMemory>
    requires sound { IsSound chain.now }
    requires shows { ShowsCopy (S.shows steps.old) chain.now }
    ensures follows { S.follows steps.old steps.new }
    ensures reads { Reads result (S.seen steps.old) (S.seen steps.new) }
    ensures shows { ShowsRead (S.shows steps.new) key result }
    ensures slice { IsReadFrom key result }
    ensures calm { IsLeafAround key chain.now → IsAnswered result }
    ensures no_effort { IsLeafAround key chain.now
        → (S.seen steps.new).effort ≡ (S.seen steps.old).effort }
{
    let Fences { low, high, .. } = fences(chain);
    if !is_leaf(chain) || key < low || !high.is_above(key) {
        steps.idle();
        return Ok(None);
    }
    let pairs = pairs_from(machine, chain, key)?;
    let next = next_leaf(high);
    Ok(Some(Slice { pairs, next }))
}

/// Where the leaf begins that comes after one with this end.
#[inline(always)]
fn next_leaf(end: Fence) -> Option<Key>
    ensures same { end_of_slice result ≡ end_of end }
    ensures among_keys { end_of end ≤ key_count }
{
    match end {
        Fence::Key(next) => Some(next),
        Fence::Top => None,
    }
}

/// The chain's pairs from the key on.
fn pairs_from<A: Allocator + Copy>(
    machine: Global,
    chain: &Chain<A>,
    key: Key,
) -> Result<Vec<(Key, u64)>, NoMemory>
    requires sound { IsSound chain.now }
    ensures { IfOk result (λ list. list.items ≡ from key (pairs chain.now)) }
{
    let mut list = Vec::new(machine);
    append_pairs(chain, &mut list)?;
    list.retain(|pair: &(Key, u64)| key <= pair.0);
    Ok(list)
}
