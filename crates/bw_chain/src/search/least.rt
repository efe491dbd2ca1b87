//! The least entry from a fence on.

ghost use Rattle.std.specs.Prelude.{◌≡◌, ℕ, ◌≤◌, List};
ghost use Rattle.bw_keys.specs.Ranges.{end_of};
ghost use Rattle.bw_delta.specs.Entries.{first_from};
ghost use Rattle.bw_chain.specs.Ascends.{IsAscending};
ghost use Rattle.bw_chain.specs.Changes.{changed, entries_by};
ghost use Rattle.bw_chain.specs.Searching.Gaps.{HasGap};

use crate::entries::bounds::{at_least, at_most, is_before, past};
use crate::entries::change::Change;
use crate::entries::sorted::first_listed;
use crate::entries::value::EntryValue;
use crate::search::entry::find_entry;
use bw_delta::{Base, Chain, Node};
use bw_keys::{Fence, Key};
use std::alloc::Allocator;

/// Returns the least entry from the fence on. Candidates are tried in turn until one is an entry:
/// each before it is a deleted key.
pub(crate) fn first_from<A: Allocator + Copy, X: EntryValue>(
    chain: &Chain<A>,
    fence: Fence,
) -> Option<(Key, X)>
    requires ascending { IsAscending (entries_by X.own_entries X.own_change chain.now) }
    ensures { result ≡ first_from (end_of fence) (entries_by X.own_entries X.own_change chain.now) }
{
    let mut from = fence;
    'candidates: while let Fence::Key(key) = first_candidate::<A, X>(chain, from) {
        if let Some(value) = find_entry(chain, key) {
            return Some((key, value));
        }
        from = past(key);
    }
    None
}

/// Returns the least candidate from the fence on, or `Top` if there is none.
fn first_candidate<A: Allocator + Copy, X: EntryValue>(chain: &Chain<A>, from: Fence) -> Fence
    ensures later { end_of from ≤ end_of result }
    ensures gap { HasGap (end_of from) (end_of result)
        (entries_by X.own_entries X.own_change chain.now) }
{
    match &chain.node {
        Node::Bare(base) => first_on_base::<A, X>(base, from),
        Node::Above(delta, below) => {
            let found = first_candidate::<A, X>(below, from);
            first_under(X::change_by(*delta), from, found)
        }
        Node::Merged(merging, left, right) => {
            let found = first_candidate::<A, X>(left, from);
            if is_before(found, merging.separator) {
                found
            } else {
                first_candidate::<A, X>(right, at_least(from, merging.separator))
            }
        }
    }
}

fn first_on_base<A: Allocator + Copy, X: EntryValue>(base: &Base<A>, from: Fence) -> Fence
    ensures later { end_of from ≤ end_of result }
    ensures gap { HasGap (end_of from) (end_of result) (X.own_entries base.now.listed) }
{
    match first_listed(X::entries_on(base), from) {
        Some(entry) => Fence::Key(entry.0),
        None => Fence::Top,
    }
}

/// Returns the least candidate once the change stands above those that were found.
fn first_under<X: Copy>(change: Change<X>, from: Fence, found: Fence) -> Fence
    requires later { end_of from ≤ end_of found }
    ensures later { end_of from ≤ end_of result }
    ensures gap { (es : List (ℕ × X)) →
        HasGap (end_of from) (end_of found) es →
        HasGap (end_of from) (end_of result) (changed change es) }
{
    match change {
        Change::Put(key, _) => {
            if from.is_above(key) {
                found
            } else {
                at_most(found, key)
            }
        }
        Change::Below(bound) => {
            if is_before(found, bound) {
                found
            } else {
                Fence::Top
            }
        }
        Change::Without(_) => found,
        Change::Nothing => found,
    }
}
