//! Pairs that are put behind all pairs of a leaf, in the list of its base page.

ghost use Rattle.std.specs.Prelude.{◌≡◌, ◌++◌, true, false, IsTrue};
ghost use Rattle.bw_keys.specs.Ranges.{end_of};
ghost use Rattle.bw_delta.specs.Entries.{rises};
ghost use Rattle.bw_delta.specs.Fence.{fences};
ghost use Rattle.bw_delta.specs.Pairs.{pairs, pairs_listed};
ghost use Rattle.bw_delta.specs.Records.{bare, depth};
ghost use Rattle.bw_delta.specs.Slices.{list_of};
ghost use Rattle.bw_chain.specs.Ascends.{IsAscending};
ghost use Rattle.bw_chain.specs.InPlaces.{chain_with_each};

use bw_delta::{Base, Chain, Entries, EntryList, EntrySlice, Node};
use std::alloc::Allocator;

/// Puts pairs, whose keys rise inside the page's range, behind all that the leaf has. Returns false,
/// and changes nothing, if a record stands over the page, if it isn't a leaf's, if the first key
/// isn't above all that the leaf has, or if memory is short.
#[inline(always)]
pub fn append_in_place<A: Allocator + Copy>(chain: &mut Chain<A>, more: EntrySlice<'_, u64>) -> bool
    requires { rises (fences chain.old).low (end_of (fences chain.old).high) (list_of more)
        ≡ true }
    ensures behind { result ≡ true → IsAscending (pairs chain.old ++ list_of more.entry) }
    ensures appended { result ≡ true
        → chain.new ≡ chain_with_each (list_of more.entry) chain.old }
    ensures bare { result ≡ true → depth chain.old ≡ 0 }
    ensures unchanged { result ≡ false → chain.new ≡ chain.old }
{
    match &mut chain.node {
        Node::Bare(base) => append_on_base(base, more),
        Node::Above(_, _) | Node::Merged(_, _, _) => false,
    }
}

#[inline(always)]
fn append_on_base<A: Allocator + Copy>(base: &mut Base<A>, more: EntrySlice<'_, u64>) -> bool
    requires { rises base.old.low (end_of base.old.high) (list_of more) ≡ true }
    ensures behind { result ≡ true
        → IsAscending (pairs_listed base.old.listed ++ list_of more.entry) }
    ensures appended { result ≡ true
        → bare base.new ≡ chain_with_each (list_of more.entry) (bare base.old) }
    ensures unchanged { result ≡ false → base.new ≡ base.old }
{
    match &mut base.entries {
        Entries::Pairs(pairs) => append_listed(pairs, more),
        Entries::Routes(_) => false,
    }
}

#[inline(always)]
fn append_listed<A: Allocator + Copy>(
    pairs: &mut EntryList<u64, A>,
    more: EntrySlice<'_, u64>,
) -> bool
    requires ascending { IsAscending pairs.old }
    requires more_ascending { IsAscending (list_of more) }
    ensures behind { result ≡ true → IsAscending (pairs.old ++ list_of more.entry) }
    ensures appended { result ≡ true → pairs.new ≡ pairs.old ++ list_of more.entry }
    ensures unchanged { result ≡ false → pairs.new ≡ pairs.old }
{
    is_behind(pairs.as_slice(), more) && pairs.append(more).is_ok()
}

/// Reports whether the keys of the second list are above those of the first.
#[inline(always)]
fn is_behind(front: EntrySlice<'_, u64>, more: EntrySlice<'_, u64>) -> bool
    requires ascending { IsAscending (list_of front) }
    requires more_ascending { IsAscending (list_of more) }
    ensures { IsTrue result → IsAscending (list_of front.entry ++ list_of more.entry) }
{
    match (front.last(), more.first()) {
        (Some(last), Some(first)) => last.0 < first.0,
        _ => true,
    }
}
