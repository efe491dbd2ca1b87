//! Pairs of a chain that lie side by side on a base page, borrowed in place. No record above the
//! page names a key among them, so they are the chain's: a page with no records is one stretch, and
//! so is one with only its split above it.

ghost use Rattle.std.specs.Prelude.{◌≡◌, ◌≢◌, ◌↔◌, ℕ, ◌+◌, ◌<◌, ◌≤◌, min, max, List, None, IfSome};
ghost use Rattle.bw_keys.specs.Ranges.{end_of};
ghost use Rattle.bw_delta.specs.Entries.{below, from};
ghost use Rattle.bw_delta.specs.Pairs.{pairs, pairs_listed};
ghost use Rattle.bw_delta.specs.Records.{depth};
ghost use Rattle.bw_delta.specs.Slices.{list_of};
ghost use Rattle.bw_delta.specs.Sound.{IsSound};
ghost use Rattle.bw_chain.specs.Ascends.{IsAscending};
ghost use Rattle.bw_chain.specs.Changes.{changed, entries_by, pair_change};
ghost use Rattle.bw_chain.specs.Passing.Heads.{BeginsWith, EndsWith};
ghost use Rattle.bw_chain.specs.Searching.Stretches.{AreSameWithin};

use crate::entries::bounds::{at_most, past};
use crate::entries::change::Change;
use crate::entries::sorted::entries_from;
use crate::entries::value::EntryValue;
use crate::pass::below_end;
use bw_delta::{Chain, EntrySlice, Node};
use bw_keys::{Fence, Key};
use std::alloc::Allocator;

/// The pairs of a base page, with the range of keys, from the low to the end, in which they are all
/// that the chain holds.
#[derive(Clone, Copy)]
struct Stretch<'a> {
    pairs: EntrySlice<'a, u64>,
    low: Key,
    end: Fence,
}

/// Returns those of the chain's pairs that begin at the key and lie side by side. They end before
/// the first key that a record names, or with the page if no record names one. The call walks down
/// the records once and takes no memory.
#[tactic(auto, using(crate::proofs::Bridges::both_kinds))]
pub fn pairs_from<A: Allocator + Copy>(chain: &Chain<A>, key: Key) -> EntrySlice<'_, u64>
    requires sound { IsSound chain.now }
    ensures { BeginsWith (from key (pairs chain.now)) (list_of result) }
{
    let stretch = stretch_around(chain, key);
    below_end(entries_from(stretch.pairs, Fence::Key(key)), stretch.end)
}

/// Returns all of the chain's pairs from the key on and below the end, which lie side by side, or none
/// if a record stands above its page. It takes no memory.
pub fn pairs_within<A: Allocator + Copy>(
    chain: &Chain<A>,
    key: Key,
    end: Fence,
) -> Option<EntrySlice<'_, u64>>
    ensures all { IfSome result (λ run.
        list_of run ≡ below (end_of end) (from key (pairs chain.now))) }
    ensures records { (result ≡ None) ↔ (0 < depth chain.now) }
{
    let Node::Bare(base) = &chain.node else {
        return None;
    };
    let pairs = entries_from(u64::entries_on(base), Fence::Key(key));
    Some(below_end(pairs, end))
}

/// Returns the chain's pairs up to the key that lie side by side, from after the last key that a
/// record names: all of them if none does. It takes one walk down the records, and no memory.
#[tactic(auto, using(crate::proofs::Bridges::both_kinds))]
pub fn pairs_upto<A: Allocator + Copy>(chain: &Chain<A>, key: Key) -> EntrySlice<'_, u64>
    requires sound { IsSound chain.now }
    ensures { EndsWith (below (key + 1) (pairs chain.now)) (list_of result) }
{
    let stretch = stretch_around(chain, key);
    if !stretch.end.is_above(key) {
        return EntrySlice::empty();
    }
    let upto = below_end(stretch.pairs, past(key));
    entries_from(upto, Fence::Key(stretch.low))
}

/// Returns the stretch round the key, or one that ends there if a record names the key.
fn stretch_around<A: Allocator + Copy>(chain: &Chain<A>, key: Key) -> Stretch<'_>
    ensures begins { result.low ≤ key }
    ensures same { AreSameWithin result.low (end_of result.end) (list_of result.pairs)
        (entries_by pairs_listed pair_change chain.now) }
    ensures ascending { IsAscending (list_of result.pairs) }
{
    match &chain.node {
        Node::Bare(base) => Stretch {
            pairs: u64::entries_on(base),
            low: 0,
            end: Fence::Top,
        },
        Node::Above(delta, below) => {
            let stretch = stretch_around(below, key);
            stretch_under(u64::change_by(*delta), key, stretch)
        }
        Node::Merged(merging, left, right) => {
            if key < merging.separator {
                part_before(stretch_around(left, key), merging.separator)
            } else {
                part_behind(stretch_around(right, key), merging.separator)
            }
        }
    }
}

/// Returns what a change leaves of a stretch round the key.
fn stretch_under(change: Change<u64>, key: Key, stretch: Stretch<'_>) -> Stretch<'_>
    requires begins { stretch.low ≤ key }
    ensures begins { result.low ≤ key }
    ensures pairs { result.pairs ≡ stretch.entry.pairs }
    ensures same { (es : List (ℕ × ℕ)) →
        let listed = list_of stretch.entry.pairs in
        AreSameWithin stretch.entry.low (end_of stretch.entry.end) listed es →
        AreSameWithin result.low (end_of result.end) listed (changed change es) }
{
    match change {
        Change::Put(named, _) => beside(stretch, named, key),
        Change::Without(named) => beside(stretch, named, key),
        Change::Below(bound) => part_before(stretch, bound),
        Change::Nothing => stretch,
    }
}

/// Returns the part of a stretch round the key that lies on its side of a named key, or before the
/// named key if that is the key itself.
fn beside(stretch: Stretch<'_>, named: Key, key: Key) -> Stretch<'_>
    requires begins { stretch.low ≤ key }
    ensures begins { result.low ≤ key }
    ensures pairs { result.pairs ≡ stretch.entry.pairs }
    ensures inside { (q : ℕ) → result.low ≤ q → q < end_of result.end →
        (stretch.entry.low ≤ q) × (q < end_of stretch.entry.end) }
    ensures others { (q : ℕ) → result.low ≤ q → q < end_of result.end → named ≢ q }
{
    match named.checked_add(1) {
        Some(next) if next <= key => part_behind(stretch, next),
        _ => part_before(stretch, named),
    }
}

/// Returns the part of a stretch before the key.
fn part_before(stretch: Stretch<'_>, key: Key) -> Stretch<'_>
    ensures low { result.low ≡ stretch.entry.low }
    ensures end { end_of result.end ≡ min (end_of stretch.entry.end) key }
    ensures pairs { result.pairs ≡ stretch.entry.pairs }
{
    Stretch {
        end: at_most(stretch.end, key),
        ..stretch
    }
}

/// Returns the part of a stretch from the key on.
fn part_behind(stretch: Stretch<'_>, key: Key) -> Stretch<'_>
    ensures low { result.low ≡ max stretch.entry.low key }
    ensures end { result.end ≡ stretch.entry.end }
    ensures pairs { result.pairs ≡ stretch.entry.pairs }
{
    Stretch {
        low: stretch.low.max(key),
        ..stretch
    }
}
