//! Searches for one key down a chain: for what stands there, the next entry and the last one.
//!
//! Each key that a base page or a record names is a candidate for the next entry, even if a newer
//! record deletes it, but not if a split or a merge cuts it off. So one walk down the chain finds a
//! candidate, and a search for its key decides whether it is an entry.

mod entry;
mod greatest;
mod least;
mod reach;
mod separator;
mod stretch;

ghost use Rattle.std.specs.Prelude.{◌≡◌, ◌↔◌, option_map, IsTrue, IsSome};
ghost use Rattle.bw_delta.specs.Entries.{at, first_from, last_below, last_upto};
ghost use Rattle.bw_delta.specs.Pairs.{pairs, routes};
ghost use Rattle.bw_delta.specs.Sound.{IsSound};

use crate::entries::value::EntryValue;
use crate::search::entry::find_entry;
use crate::search::greatest::{last_upto, last_value_upto};
use crate::search::least::first_from;
use bw_delta::{Chain, Node};
use bw_keys::{Fence, Key, Pid};
pub use separator::is_later_key;
use std::alloc::Allocator;
pub use stretch::{pairs_from, pairs_upto, pairs_within};

/// Returns the value at the key: that of the newest record which names the key, or else the base
/// page's (Levandoski et al., ICDE 2013, "page search"). Of a base page it reads keys, and the one
/// value. An inner page has no values.
#[tactic(auto, using(crate::proofs::Bridges::both_kinds))]
#[inline(always)]
pub fn find<A: Allocator + Copy>(chain: &Chain<A>, key: Key) -> Option<u64>
    ensures { result ≡ at key (pairs chain.now) }
{
    find_entry(chain, key)
}

/// Returns the pair with the least key at or above the key. It takes one walk down the chain, and
/// another for each deleted key on the way.
#[tactic(auto, using(crate::proofs::Bridges::both_kinds))]
pub fn next_at<A: Allocator + Copy>(chain: &Chain<A>, key: Key) -> Option<(Key, u64)>
    requires sound { IsSound chain.now }
    ensures { result ≡ first_from key (pairs chain.now) }
{
    first_from(chain, Fence::Key(key))
}

/// Reports whether there is a pair at the key or past it. Of a chain without records it reads the
/// last key alone.
#[tactic(auto, using(crate::proofs::Bridges::both_kinds))]
#[inline(always)]
pub fn has_pair_from<A: Allocator + Copy>(chain: &Chain<A>, key: Key) -> bool
    requires sound { IsSound chain.now }
    ensures { IsTrue result ↔ IsSome (first_from key (pairs chain.now)) }
{
    match &chain.node {
        Node::Bare(base) => match u64::entries_on(base).last() {
            Some(last) => key <= last.0,
            None => false,
        },
        Node::Above(_, _) | Node::Merged(_, _, _) => next_at(chain, key).is_some(),
    }
}

/// Returns the pair with the greatest key at or below the key. Where no deletion and no merge is in
/// the way, it takes one walk down the records and one search of the base page.
#[tactic(auto, using(crate::proofs::Bridges::both_kinds))]
pub fn previous_at<A: Allocator + Copy>(chain: &Chain<A>, key: Key) -> Option<(Key, u64)>
    requires sound { IsSound chain.now }
    ensures { result ≡ last_upto key (pairs chain.now) }
{
    last_upto::<A, u64>(chain, key)
}

/// Returns the page that is routed at exactly this separator.
#[tactic(auto, using(crate::proofs::Bridges::both_kinds))]
pub fn route_at<A: Allocator + Copy>(chain: &Chain<A>, separator: Key) -> Option<Pid>
    ensures { result ≡ at separator (routes chain.now) }
{
    find_entry(chain, separator)
}

/// Returns the route with the greatest separator at or below the key: its page is where a search
/// for the key goes down. There is none below the least separator, and none on a leaf.
#[tactic(auto, using(crate::proofs::Bridges::both_kinds))]
#[inline(always)]
pub fn child<A: Allocator + Copy>(chain: &Chain<A>, key: Key) -> Option<(Key, Pid)>
    requires sound { IsSound chain.now }
    ensures { result ≡ last_upto key (routes chain.now) }
{
    last_upto(chain, key)
}

/// Returns the page of that route alone.
#[tactic(auto, using(crate::proofs::Bridges::both_kinds))]
#[inline(always)]
pub fn child_page<A: Allocator + Copy>(chain: &Chain<A>, key: Key) -> Option<Pid>
    requires sound { IsSound chain.now }
    ensures { result ≡ option_map (λ route. route.1) (last_upto key (routes chain.now)) }
{
    last_value_upto(chain, key)
}

/// Returns the route with the greatest separator strictly below the key.
#[tactic(auto, using(crate::proofs::Bridges::both_kinds))]
pub fn route_before<A: Allocator + Copy>(chain: &Chain<A>, key: Key) -> Option<(Key, Pid)>
    requires sound { IsSound chain.now }
    ensures { result ≡ last_below key (routes chain.now) }
{
    match key.checked_sub(1) {
        Some(before) => last_upto(chain, before),
        None => None,
    }
}
