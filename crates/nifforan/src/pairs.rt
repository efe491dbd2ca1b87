//! The pairs of a map in a range of keys, one after the other, from either end.

ghost use Rattle.std.specs.Prelude.{◌≡◌, ◌+◌, ◌≤◌, [], ◌∷◌, ◌++◌, IfSome, IfNone, length};
ghost use Rattle.bw_keys.specs.Ranges.{end_of, key_count};
ghost use Rattle.bw_delta.specs.Slices.{list_of};
ghost use Rattle.bw_table.specs.Orders.{HasNoKeyWithin, IsNextAt};
ghost use Rattle.nifforan.specs.Reading.{IsLeafFor, AreLent, below_end, end_past, from_start, end_before};

use crate::back::{Back, previous_from};
use crate::bounds::fence_behind;
use bw_delta::EntrySlice;
use bw_keys::{Fence, Key};
use bw_table::{LeafRef, Table};
use std::alloc::Allocator;
use std::iter::FusedIterator;
use std::marker::Model;

/// The pairs of a map whose keys lie in a range, in the order of their keys, from either end.
///
/// Takes no memory. It holds a leaf of the map, walks along that leaf's own list, and goes on to
/// the leaf on the right. It searches only for the keys that a record of the leaf names. At the
/// back it holds another leaf, which it searches for when the first pair is taken from there, and
/// whenever no pair of that leaf is left.
#[derive(Drop)]
pub struct Pairs<'m, A: Allocator + Copy> {
    pub(crate) table: &'m Table<A>,
    pub(crate) leaf: LeafRef<'m, A>,
    /// Some of the leaf's next pairs, which lie side by side in it.
    pub(crate) lent: EntrySlice<'m, u64>,
    /// Where the keys still to come begin.
    pub(crate) next: Fence,
    /// Where they end.
    pub(crate) high: Fence,
    /// The leaf in which they end, once a pair has been taken from the back.
    pub(crate) back: Option<Back<'m, A>>,
}

impl<'m, A: Allocator + Copy> Model for Pairs<'m, A> {
    ghost use Rattle.std.specs.Coded.{coded_list, coded×, coded_ℕ};
    ghost use Rattle.std.specs.Prelude.{IfSome};
    ghost use Rattle.bw_delta.specs.Slices.{list_of};
    ghost use Rattle.bw_keys.specs.Ranges.{end_of};
    ghost use Rattle.nifforan.specs.Maps.{PairList, pairs_of, within};
    ghost use Rattle.nifforan.specs.Reading.{IsLeafFor, AreLent, HoldsUnder};

    ghost Value = { PairList };

    ghost coded = { coded_list (coded× coded_ℕ coded_ℕ) };

    ghost view = { λ r. within (end_of r.next) (end_of r.high) (pairs_of r.table.now.slots) };

    ghost invariant = { λ r. IsLeafFor r.table.now r.leaf (end_of r.next)
        × AreLent r.leaf (end_of r.next) (list_of r.lent)
        × IfSome r.back (HoldsUnder r.table.now (end_of r.high)) };
}

impl<'m, A: Allocator + Copy> Pairs<'m, A> {
    /// Takes pairs from the front that lie side by side in the held leaf, at most so many. There
    /// may be none though some are left; [`Pairs::next`] then finds the next one.
    #[inline(always)]
    pub fn take_run(&mut self, most: usize) -> EntrySlice<'m, u64>
        ensures taken { self.old ≡ list_of result ++ self.new }
        ensures few { length (list_of result) ≤ most }
    {
        if self.next.is_above(Key::MAX) {
            return EntrySlice::empty();
        }
        let (run, rest) = self.lent.split_at(count_under(self.high, self.lent, most));
        let Some(last) = run.last() else {
            return EntrySlice::empty();
        };
        if !self.high.is_above(last.0) {
            return EntrySlice::empty();
        }
        self.lent = rest;
        self.next = fence_behind(last.0);
        run
    }
}

/// Returns how many of the pairs are taken at once, at most so many. If not all of them lie below
/// the fence, it halves the number until the last one does.
#[inline(always)]
fn count_under(high: Fence, lent: EntrySlice<'_, u64>, most: usize) -> usize
    ensures inside { result ≤ length (list_of lent.entry) }
    ensures few { result ≤ most }
{
    let mut count = most.min(lent.len());
    'halves: while count > 0 && !high.is_above(lent.key(count - 1)) {
        count /= 2;
    }
    count
}

impl<'m, A: Allocator + Copy> Iterator for Pairs<'m, A> {
    ghost use Rattle.std.specs.Iterator.{YieldsFirst, item_count};

    type Item = (Key, u64);

    ghost next_gives = { YieldsFirst (λ left. left) };

    ghost remaining = { item_count (λ left. left) };

    #[inline(always)]
    fn next(&mut self) -> Option<(Key, u64)> {
        let from = match self.next {
            Fence::Key(from) => from,
            Fence::Top => return None,
        };
        let found = next_from(self.table, &mut self.leaf, &mut self.lent, from);
        let pair = below(self.high, found);
        self.next = past(pair);
        pair
    }
}

impl<'m, A: Allocator + Copy> DoubleEndedIterator for Pairs<'m, A> {
    ghost use Rattle.std.specs.Iterator.{YieldsLast};

    ghost next_back_gives = { YieldsLast (λ left. left) };

    #[inline(always)]
    fn next_back(&mut self) -> Option<(Key, u64)> {
        let Some(upto) = last_under(self.high) else {
            return None;
        };
        let found = previous_from(self.table, &mut self.back, upto);
        let pair = at_or_past(self.next, found);
        self.high = before(pair);
        pair
    }
}

impl<'m, A: Allocator + Copy> FusedIterator for Pairs<'m, A> {}

/// Returns the pair, if its key lies below the fence.
#[inline(always)]
fn below(high: Fence, pair: Option<(Key, u64)>) -> Option<(Key, u64)>
    ensures { result ≡ below_end (end_of high) pair }
{
    match pair {
        Some(pair) if high.is_above(pair.0) => Some(pair),
        _ => None,
    }
}

/// Returns where the keys after the pair begin: past all keys if there is none.
#[inline(always)]
fn past(pair: Option<(Key, u64)>) -> Fence
    ensures { end_of result ≡ end_past pair }
{
    match pair {
        Some((key, _)) => fence_behind(key),
        None => Fence::Top,
    }
}

/// Returns the greatest key below the fence, if there is one.
#[inline(always)]
fn last_under(high: Fence) -> Option<Key>
    ensures key { IfSome result (λ key. key + 1 ≡ end_of high) }
    ensures none { IfNone result (end_of high ≡ 0) }
{
    match high {
        Fence::Key(high) => high.checked_sub(1),
        Fence::Top => Some(Key::MAX),
    }
}

/// Returns the pair, if its key doesn't lie below the fence.
#[inline(always)]
fn at_or_past(next: Fence, pair: Option<(Key, u64)>) -> Option<(Key, u64)>
    ensures { result ≡ from_start (end_of next) pair }
{
    match pair {
        Some(pair) if !next.is_above(pair.0) => Some(pair),
        _ => None,
    }
}

/// Returns where the keys before the pair end: before all keys if there is none.
#[inline(always)]
fn before(pair: Option<(Key, u64)>) -> Fence
    ensures { end_of result ≡ end_before pair }
{
    match pair {
        Some((key, _)) => Fence::Key(key),
        None => Fence::Key(0),
    }
}

/// Returns the table's pair with the least key at or above the key, if there is one: the first of
/// those lent, or the one that is searched for if none is left. The leaf that has it is held then.
#[inline(always)]
fn next_from<'m, A: Allocator + Copy>(
    table: &'m Table<A>,
    leaf: &mut LeafRef<'m, A>,
    lent: &mut EntrySlice<'m, u64>,
    key: Key,
) -> Option<(Key, u64)>
    requires leaf { IsLeafFor table.now leaf.old key }
    requires lent { AreLent leaf.old key (list_of lent.old) }
    ensures next { IfSome result (IsNextAt table.now key) }
    ensures none { IfNone result (HasNoKeyWithin table.now key key_count) }
    ensures leaf { IfSome result (λ pair. IsLeafFor table.now leaf.new pair.0) }
    ensures last { IsLeafFor table.now leaf.new key_count }
    ensures lent { AreLent leaf.new (end_past result) (list_of lent.new) }
{
    if let Some(pair) = take_first(lent) {
        return Some(pair);
    }
    searched_from(table, leaf, lent, key)
}

/// Takes the first pair of those lent.
#[inline(always)]
fn take_first<'m>(lent: &mut EntrySlice<'m, u64>) -> Option<(Key, u64)>
    ensures first { IfSome result (λ pair. list_of lent.old ≡ pair ∷ list_of lent.new) }
    ensures none { IfNone result (list_of lent.new ≡ []) }
{
    let (pair, rest) = lent.split_first()?;
    *lent = rest;
    Some(pair)
}

/// Searches leaf by leaf for the table's pair with the least key at or above the key, and returns
/// it. The leaf that has it is held then, and lends the pairs after it.
fn searched_from<'m, A: Allocator + Copy>(
    table: &'m Table<A>,
    leaf: &mut LeafRef<'m, A>,
    lent: &mut EntrySlice<'m, u64>,
    key: Key,
) -> Option<(Key, u64)>
    requires { IsLeafFor table.now leaf.old key }
    ensures next { IfSome result (IsNextAt table.now key) }
    ensures none { IfNone result (HasNoKeyWithin table.now key key_count) }
    ensures leaf { IfSome result (λ pair. IsLeafFor table.now leaf.new pair.0) }
    ensures last { IsLeafFor table.now leaf.new key_count }
    ensures lent { AreLent leaf.new (end_past result) (list_of lent.new) }
{
    let mut from = key;
    'leaves: loop {
        if leaf.has_pair_from(from) {
            *lent = leaf.pairs_from(from);
            if let Some(pair) = take_first(lent) {
                return Some(pair);
            }
            return leaf.next_at(from);
        }
        let sibling = table.right_sibling(leaf.pid())?;
        from = from.max(sibling.low());
        *leaf = sibling;
    }
}
