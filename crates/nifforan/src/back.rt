//! The back end of a range, from which its pairs are taken backwards.

ghost use Rattle.std.specs.Prelude.{◌≡◌, ◌+◌, [], ◌∷◌, ◌++◌, IfSome, IfNone};
ghost use Rattle.bw_delta.specs.Slices.{list_of};
ghost use Rattle.bw_table.specs.Orders.{HasNoKeyWithin, IsPreviousAt};
ghost use Rattle.nifforan.specs.Reading.{IsLeafUnder, AreLentUnder, HoldsUnder, end_before};

use bw_delta::EntrySlice;
use bw_keys::Key;
use bw_table::{LeafRef, Table};
use std::alloc::Allocator;

/// The leaf that holds the last of the keys still to come.
#[derive(Drop)]
pub(crate) struct Back<'m, A: Allocator + Copy> {
    pub(crate) leaf: LeafRef<'m, A>,
    /// Some of the leaf's last pairs, which lie side by side in it.
    pub(crate) lent: EntrySlice<'m, u64>,
}

/// Returns the table's pair with the greatest key at or below the key, if there is one. If no leaf
/// is held yet, it searches for one. The leaf of the pair is then held.
#[inline(always)]
pub(crate) fn previous_from<'m, A: Allocator + Copy>(
    table: &'m Table<A>,
    back: &mut Option<Back<'m, A>>,
    key: Key,
) -> Option<(Key, u64)>
    requires { IfSome back.old (HoldsUnder table.now (key + 1)) }
    ensures previous { IfSome result (IsPreviousAt table.now key) }
    ensures none { IfNone result (HasNoKeyWithin table.now 0 (key + 1)) }
    ensures back { IfSome back.new (HoldsUnder table.now (end_before result)) }
{
    if let Some(held) = back {
        return previous_in(table, &mut held.leaf, &mut held.lent, key);
    }
    let mut leaf = table.leaf_of(key);
    let mut lent = EntrySlice::empty();
    let pair = searched_upto(table, &mut leaf, &mut lent, key);
    *back = Some(Back { leaf, lent });
    pair
}

/// Does the same from the held leaf: returns the last pair of those lent, or searches for one if
/// none is left.
#[inline(always)]
fn previous_in<'m, A: Allocator + Copy>(
    table: &'m Table<A>,
    leaf: &mut LeafRef<'m, A>,
    lent: &mut EntrySlice<'m, u64>,
    key: Key,
) -> Option<(Key, u64)>
    requires leaf { IsLeafUnder table.now leaf.old (key + 1) }
    requires lent { AreLentUnder leaf.old (key + 1) (list_of lent.old) }
    ensures previous { IfSome result (IsPreviousAt table.now key) }
    ensures none { IfNone result (HasNoKeyWithin table.now 0 (key + 1)) }
    ensures leaf { IsLeafUnder table.now leaf.new (end_before result) }
    ensures lent { AreLentUnder leaf.new (end_before result) (list_of lent.new) }
{
    if let Some(pair) = take_last(lent) {
        return Some(pair);
    }
    searched_upto(table, leaf, lent, key)
}

/// Takes the last pair of those lent.
#[inline(always)]
fn take_last<'m>(lent: &mut EntrySlice<'m, u64>) -> Option<(Key, u64)>
    ensures last { IfSome result (λ pair. list_of lent.old ≡ list_of lent.new ++ pair ∷ []) }
    ensures none { IfNone result (list_of lent.new ≡ []) }
{
    let (pair, rest) = lent.split_last()?;
    *lent = rest;
    Some(pair)
}

/// Searches leaf by leaf for the table's pair with the greatest key at or below the key, and
/// returns it. The leaf that has it is held then, and lends the pairs before it.
fn searched_upto<'m, A: Allocator + Copy>(
    table: &'m Table<A>,
    leaf: &mut LeafRef<'m, A>,
    lent: &mut EntrySlice<'m, u64>,
    key: Key,
) -> Option<(Key, u64)>
    requires { IsLeafUnder table.now leaf.old (key + 1) }
    ensures previous { IfSome result (IsPreviousAt table.now key) }
    ensures none { IfNone result (HasNoKeyWithin table.now 0 (key + 1)) }
    ensures leaf { IsLeafUnder table.now leaf.new (end_before result) }
    ensures lent { AreLentUnder leaf.new (end_before result) (list_of lent.new) }
{
    let mut upto = key;
    'leaves: loop {
        *lent = leaf.pairs_upto(upto);
        if let Some(pair) = take_last(lent) {
            return Some(pair);
        }
        if let Some(pair) = leaf.previous_at(upto) {
            return Some(pair);
        }
        match leaf.low().checked_sub(1) {
            Some(before) => {
                upto = upto.min(before);
                *leaf = table.leaf_of(upto);
            }
            None => return None,
        }
    }
}
