ghost use Rattle.std.specs.Prelude.{◌≡◌, ◌&&◌, not, is_some};
ghost use Rattle.bw_delta.specs.Entries.{at, starts_at};
ghost use Rattle.bw_delta.specs.Sound.{IsSound, is_later_key};
ghost use Rattle.bw_chain.specs.Ascends.{IsAscending};
ghost use Rattle.bw_chain.specs.Changes.{entries_by};

use crate::entries::value::EntryValue;
use crate::page::shape::is_leaf;
use crate::search::entry::find_entry;
use crate::search::least::first_from;
use bw_delta::Chain;
use bw_keys::{Fence, Key, Pid};
use std::alloc::Allocator;

/// Reports whether the key is that of an entry other than the first. A page can be split there, as
/// both parts have entries.
#[tactic(auto, using(crate::proofs::Bridges::both_kinds))]
pub fn is_later_key<A: Allocator + Copy>(chain: &Chain<A>, key: Key) -> bool
    requires sound { IsSound chain.now }
    ensures { result ≡ is_later_key key chain.now }
{
    if is_leaf(chain) {
        is_later_entry::<A, u64>(chain, key)
    } else {
        is_later_entry::<A, Pid>(chain, key)
    }
}

fn is_later_entry<A: Allocator + Copy, X: EntryValue>(chain: &Chain<A>, key: Key) -> bool
    requires ascending { IsAscending (entries_by X.own_entries X.own_change chain.now) }
    ensures { let es = entries_by X.own_entries X.own_change chain.now in
        result ≡ (is_some (at key es) && not (starts_at key es)) }
{
    if find_entry::<A, X>(chain, key).is_none() {
        return false;
    }
    match first_from::<A, X>(chain, Fence::Key(0)) {
        Some(first) => first.0 != key,
        None => false,
    }
}
