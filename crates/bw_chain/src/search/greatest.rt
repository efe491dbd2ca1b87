//! The greatest entry up to a key.

ghost use Rattle.std.specs.Prelude.{◌≡◌, ℕ, ◌≤◌, List, option_map};
ghost use Rattle.bw_keys.specs.Ranges.{end_of};
ghost use Rattle.bw_delta.specs.Entries.{last_below, last_upto};
ghost use Rattle.bw_chain.specs.Ascends.{IsAscending};
ghost use Rattle.bw_chain.specs.Changes.{changed, entries_by};
ghost use Rattle.bw_chain.specs.Searching.Gaps.{HasGap, end_under};
ghost use Rattle.bw_chain.specs.Searching.Reaches.{GoesOn};

use crate::entries::bounds::{at_most, last_key_below, later, past};
use crate::entries::change::Change;
use crate::entries::sorted::last_listed;
use crate::entries::value::EntryValue;
use crate::search::entry::find_entry;
use crate::search::reach::Reach;
use bw_delta::{Base, Chain, Node};
use bw_keys::{Fence, Key};
use std::alloc::Allocator;

/// Returns the greatest entry up to the key. Most pages of routes have no records, so that is
/// looked at first.
#[inline(always)]
pub(crate) fn last_upto<A: Allocator + Copy, X: EntryValue>(
    chain: &Chain<A>,
    key: Key,
) -> Option<(Key, X)>
    requires ascending { IsAscending (entries_by X.own_entries X.own_change chain.now) }
    ensures { result ≡ last_upto key (entries_by X.own_entries X.own_change chain.now) }
{
    match &chain.node {
        Node::Bare(base) => last_listed(X::entries_on(base), past(key)),
        // Taken apart, since an answer that is passed on whole is kept in memory on each way here.
        Node::Above(_, _) | Node::Merged(_, _, _) => match last_under_records(chain, key) {
            Some((found, value)) => Some((found, value)),
            None => None,
        },
    }
}

/// Returns the value of the same entry. A search on an inner page reads no key but those that it
/// compares.
#[inline(always)]
pub(crate) fn last_value_upto<A: Allocator + Copy, X: EntryValue>(
    chain: &Chain<A>,
    key: Key,
) -> Option<X>
    requires ascending { IsAscending (entries_by X.own_entries X.own_change chain.now) }
    ensures { result ≡ option_map (λ entry. entry.1)
        (last_upto key (entries_by X.own_entries X.own_change chain.now)) }
{
    match &chain.node {
        Node::Bare(base) => match last_listed(X::entries_on(base), past(key)) {
            Some((_, value)) => Some(value),
            None => None,
        },
        Node::Above(_, _) | Node::Merged(_, _, _) => last_value_under_records(chain, key),
    }
}

/// Returns the same, out of the way of a search that meets bare pages.
#[inline(never)]
fn last_value_under_records<A: Allocator + Copy, X: EntryValue>(
    chain: &Chain<A>,
    key: Key,
) -> Option<X>
    requires ascending { IsAscending (entries_by X.own_entries X.own_change chain.now) }
    ensures { result ≡ option_map (λ entry. entry.1)
        (last_upto key (entries_by X.own_entries X.own_change chain.now)) }
{
    match last_under_records::<A, X>(chain, key) {
        Some((_, value)) => Some(value),
        None => None,
    }
}

/// Returns the same entry. Where no deletion and no merge is in the way, it takes one walk down the
/// records and one search of the base page.
fn last_under_records<A: Allocator + Copy, X: EntryValue>(
    chain: &Chain<A>,
    key: Key,
) -> Option<(Key, X)>
    requires ascending { IsAscending (entries_by X.own_entries X.own_change chain.now) }
    ensures { result ≡ last_upto key (entries_by X.own_entries X.own_change chain.now) }
{
    let mut reach = Reach::new(key);
    match &under_passed::<A, X>(chain, &mut reach).node {
        Node::Bare(base) => reach.greatest(X::entries_on(base)),
        Node::Above(_, _) | Node::Merged(_, _, _) => last_below(chain, past(key)),
    }
}

/// Returns the part of the chain under the records that the search can pass. This walk is built as
/// a loop, as it calls itself last and returns a reference.
fn under_passed<'a, A: Allocator + Copy, X: EntryValue>(
    chain: &'a Chain<A>,
    reach: &mut Reach<X>,
) -> &'a Chain<A>
    ensures { GoesOn reach.old (entries_by X.own_entries X.own_change chain.now)
        reach.new (entries_by X.own_entries X.own_change result.now) }
{
    match &chain.node {
        Node::Bare(_) => chain,
        Node::Above(delta, below) => {
            if reach.passes(X::change_by(*delta)) {
                under_passed::<A, X>(below, reach)
            } else {
                chain
            }
        }
        Node::Merged(merging, left, _) => {
            if reach.upto < merging.separator {
                under_passed::<A, X>(left, reach)
            } else {
                chain
            }
        }
    }
}

/// Returns the greatest entry below the fence. Candidates are tried in turn, as for the least one.
fn last_below<A: Allocator + Copy, X: EntryValue>(
    chain: &Chain<A>,
    fence: Fence,
) -> Option<(Key, X)>
    requires ascending { IsAscending (entries_by X.own_entries X.own_change chain.now) }
    ensures { result ≡ last_below (end_of fence) (entries_by X.own_entries X.own_change chain.now) }
{
    let mut to = fence;
    'candidates: while let Some(key) = last_key_below(past_last_candidate::<A, X>(chain, to)) {
        if let Some(value) = find_entry(chain, key) {
            return Some((key, value));
        }
        to = Fence::Key(key);
    }
    None
}

/// Returns the fence right above the greatest candidate below the fence, or 0 if there is none.
fn past_last_candidate<A: Allocator + Copy, X: EntryValue>(chain: &Chain<A>, to: Fence) -> Fence
    ensures earlier { end_of result ≤ end_of to }
    ensures gap { HasGap (end_of result) (end_of to)
        (entries_by X.own_entries X.own_change chain.now) }
{
    match &chain.node {
        Node::Bare(base) => past_last_on_base::<A, X>(base, to),
        Node::Above(delta, below) => {
            let change = X::change_by(*delta);
            let found = past_last_candidate::<A, X>(below, end_under(change, to));
            past_last_under(change, to, found)
        }
        Node::Merged(merging, left, right) => {
            let found = past_last_candidate::<A, X>(right, to);
            if found.is_above(merging.separator) {
                found
            } else {
                past_last_candidate::<A, X>(left, at_most(to, merging.separator))
            }
        }
    }
}

fn past_last_on_base<A: Allocator + Copy, X: EntryValue>(base: &Base<A>, to: Fence) -> Fence
    ensures earlier { end_of result ≤ end_of to }
    ensures gap { HasGap (end_of result) (end_of to) (X.own_entries base.now.listed) }
{
    match last_listed(X::entries_on(base), to) {
        Some(entry) => past(entry.0),
        None => Fence::Key(0),
    }
}

/// Returns where those keys below the fence end that the change leaves.
fn end_under<X: Copy>(change: Change<X>, to: Fence) -> Fence
    ensures { end_of result ≡ end_under change (end_of to) }
{
    match change {
        Change::Below(bound) => at_most(to, bound),
        Change::Put(_, _) | Change::Without(_) | Change::Nothing => to,
    }
}

/// Returns the fence right above the greatest candidate once the change stands above those that
/// were found.
fn past_last_under<X: Copy>(change: Change<X>, to: Fence, found: Fence) -> Fence
    requires earlier { end_of found ≤ end_under change (end_of to) }
    ensures earlier { end_of result ≤ end_of to }
    ensures gap { (es : List (ℕ × X)) →
        HasGap (end_of found) (end_under change (end_of to)) es →
        HasGap (end_of result) (end_of to) (changed change es) }
{
    match change {
        Change::Put(key, _) => {
            if to.is_above(key) {
                later(found, past(key))
            } else {
                found
            }
        }
        Change::Below(_) => found,
        Change::Without(_) => found,
        Change::Nothing => found,
    }
}
