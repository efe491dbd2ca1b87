//! What stands at one key.

ghost use Rattle.std.specs.Prelude.{◌≡◌, true};
ghost use Rattle.bw_delta.specs.Entries.{at};
ghost use Rattle.bw_chain.specs.Changes.{entries_by};
ghost use Rattle.bw_chain.specs.Searching.Deciding.{ends_search};

use crate::entries::change::Change;
use crate::entries::sorted::value_at;
use crate::entries::value::EntryValue;
use bw_delta::{Chain, Node};
use bw_keys::Key;
use std::alloc::Allocator;

/// Returns what stands at the key. The newest record that decides it ends the search.
#[tactic(auto, using(bw_delta::proofs::At::ats))]
#[inline(always)]
pub(crate) fn find_entry<A: Allocator + Copy, X: EntryValue>(
    chain: &Chain<A>,
    key: Key,
) -> Option<X>
    ensures { result ≡ at key (entries_by X.own_entries X.own_change chain.now) }
{
    match &deciding_part::<A, X>(chain, key).node {
        Node::Bare(base) => value_at(X::entries_on(base), key),
        Node::Above(delta, _) => match X::change_by(*delta) {
            Change::Put(_, value) => Some(value),
            Change::Without(_) | Change::Below(_) => None,
            Change::Nothing => unreachable!(),
        },
        Node::Merged(_, _, _) => unreachable!(),
    }
}

/// Returns the part of the chain from the newest record that decides what stands at the key, or the
/// base page. This walk is built as a loop, as it calls itself last and returns a reference.
#[tactic(auto, using(bw_delta::proofs::At::ats))]
fn deciding_part<'a, A: Allocator + Copy, X: EntryValue>(
    chain: &'a Chain<A>,
    key: Key,
) -> &'a Chain<A>
    ensures same { at key (entries_by X.own_entries X.own_change result.now)
        ≡ at key (entries_by X.own_entries X.own_change chain.now) }
    ensures ends { ends_search key X.own_change result.now ≡ true }
{
    match &chain.node {
        Node::Bare(_) => chain,
        Node::Above(delta, below) => {
            if X::change_by(*delta).decides(key) {
                chain
            } else {
                deciding_part::<A, X>(below, key)
            }
        }
        Node::Merged(merging, left, right) => {
            if key < merging.separator {
                deciding_part::<A, X>(left, key)
            } else {
                deciding_part::<A, X>(right, key)
            }
        }
    }
}
