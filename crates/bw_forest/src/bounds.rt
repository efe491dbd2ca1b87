//! Where the ranges of a forest's trees begin, and which of them holds a key.

ghost use Rattle.std.specs.Prelude.{◌≡◌, false, ◌<◌, ◌≤◌, ◌↔◌, ◌+◌, ◌-◌, ◌*◌, ◌^◌, [], Some, length, min, slice_get, IsOk, IfOk, IfErr, IfSome, IsTrue, vec_capacity, ℕ, List};
ghost use Rattle.std.specs.List.Sorted.{IsNonDecreasing, IsStrictlyIncreasing};
ghost use Rattle.bw_forest.specs.Bounds.{AreBounds, AreAtQuantiles, AreEven, AreOfSample, quantile, IsBad, IsBadNumber, IsTreeOf, begun, is_bad_number, ranges_of};
ghost use Rattle.std.specs.Coded.{coded_list, coded_ℕ};

use crate::fault::BadBounds;
use crate::limits::MAX_TREES;
use bw_keys::{Fence, Key, Range};
use std::alloc::Global;
use std::marker::Model;

/// The ranges of a forest's trees, which partition the keys: the first begins at 0, each of the others
/// where the one before it ends, and the last has no end. Contracts see them as the list of keys at
/// which they begin.
#[derive(Drop)]
pub struct Bounds {
    lows: Vec<Key>,
    // A hint from which a tree is guessed, and then looked at before it is believed: 2^64 divided by
    // the width of a range if all ranges are equally wide, else 0.
    scale: u64,
}

impl Model for Bounds {
    ghost Value = { List ℕ };

    ghost coded = { coded_list coded_ℕ };

    ghost view = { λ b. b.lows.items };

    ghost invariant = { λ b. AreBounds b.lows.items };
}

impl Bounds {
    /// Returns the ranges of 1 to `MAX_TREES` trees that begin at these keys: the first is 0, and each
    /// is above the one before it.
    pub fn of(lows: Vec<Key>) -> Result<Bounds, BadBounds>
        ensures bounds { IfOk result (λ bounds. bounds ≡ lows.items) }
        ensures fine { IsOk result → AreBounds lows.items }
        ensures fault { IfErr result (IsBad lows.items) }
    {
        check_number(lows.len())?;
        if lows[0] != 0 {
            return Err(BadBounds::NotFromZero);
        }
        if !rise(lows.as_slice()) {
            return Err(BadBounds::NotRising);
        }
        Ok(Bounds { lows, scale: 0 })
    }

    /// Returns the ranges of 1 to `MAX_TREES` trees that have as many of the keys below `end` each,
    /// but for the last, which has what is left over too. A range has one key at least.
    pub fn even(machine: Global, trees: u32, end: Key) -> Result<Bounds, BadBounds>
        ensures even { IfOk result (AreEven trees end) }
        ensures fault { IfErr result (IsBadNumber trees) }
    {
        check_number(trees as usize)?;
        let Ok(mut lows) = Vec::with_capacity(machine, trees as usize) else {
            return Err(BadBounds::NoMemory);
        };
        let width = (end / trees as u64).max(1);
        for i in 0..trees {
            lows.push_reserved(i as u64 * width);
        }
        Ok(Bounds {
            lows,
            scale: scale_of(width),
        })
    }

    /// Returns the ranges of 1 to `MAX_TREES` trees, or of fewer, that have as many of these keys each:
    /// all but the first begin at a quantile of them. Where quantiles are equal there is one range for
    /// them, since a key is in one range.
    pub fn of_sample(machine: Global, keys: Vec<Key>, trees: u32) -> Result<Bounds, BadBounds>
        ensures quantiles { IfOk result (AreOfSample keys.items trees) }
        ensures fault { IfErr result (IsBadNumber trees) }
    {
        check_number(trees as usize)?;
        let Ok(lows) = Vec::with_capacity(machine, trees as usize) else {
            return Err(BadBounds::NoMemory);
        };
        let mut keys = keys;
        keys.sort_unstable();
        Ok(Bounds {
            lows: quantiles(lows, keys.as_slice(), trees),
            scale: 0,
        })
    }

    /// Returns how many trees there are.
    pub fn trees(&self) -> u32
        ensures count { result ≡ length self.now }
        ensures bounds { AreBounds self.now }
    {
        self.lows.len() as u32
    }

    /// Returns where the ranges begin.
    pub fn lows(&self) -> &[Key]
        ensures { result.now ≡ self.now }
    {
        self.lows.as_slice()
    }

    /// Returns the range of the tree with the number.
    pub fn range(&self, tree: usize) -> Range
        requires there { tree < length self.now }
        ensures range { slice_get (ranges_of self.now) tree ≡ Some result }
    {
        let high = match self.lows.get(tree + 1) {
            Some(next) => Fence::Key(*next),
            None => Fence::Top,
        };
        Range {
            low: self.lows[tree],
            high,
        }
    }

    /// Returns the number of the tree whose range holds the key.
    #[inline(always)]
    pub fn tree_of(&self, key: Key) -> usize
        ensures tree { IsTreeOf self.now key result }
        ensures there { result < length self.now }
    {
        let lows = self.lows.as_slice();
        if let Some(tree) = guess(lows, self.scale, key) {
            return tree;
        }
        count_begun(lows, key) - 1
    }
}

/// Returns 2^64 divided by the width and rounded up, or 0 if that needs more than 64 bits.
fn scale_of(width: u64) -> u64 {
    if width > 1 { u64::MAX / width + 1 } else { 0 }
}

/// Returns the number of the tree whose range holds the key, if the scale leads to it. This saves a
/// search if all ranges are equally wide.
#[inline(always)]
fn guess(lows: &[Key], scale: u64, key: Key) -> Option<usize>
    requires rise { IsStrictlyIncreasing lows.now }
    requires some { 0 < length lows.now }
    ensures { IfSome result (λ tree. begun key lows.now ≡ tree + 1) }
{
    if scale == 0 {
        return None;
    }
    // the upper half of the product
    let scaled = ((u128::from(key) * u128::from(scale)) >> 64) as usize;
    let tree = scaled.min(lows.len() - 1);
    if lows[tree] <= key && is_past(lows, tree + 1, key) {
        Some(tree)
    } else {
        None
    }
}

/// Reports whether the bound at the place is above the key. One that isn't there is above all keys.
#[inline(always)]
fn is_past(lows: &[Key], place: usize, key: Key) -> bool
    requires rise { IsStrictlyIncreasing lows.now }
    ensures { IsTrue result → begun key lows.now ≤ place }
{
    match lows.get(place) {
        Some(low) => key < *low,
        None => true,
    }
}

/// Counts the bounds at or below the key. Each step looks at three of those that are left, and takes what
/// the comparisons say without a branch, as no processor can predict it.
#[inline(always)]
fn count_begun(lows: &[Key], key: Key) -> usize
    requires rise { IsStrictlyIncreasing lows.now }
    ensures { result ≡ begun key lows.now }
{
    let mut passed = 0;
    let mut left = lows.len();
    'quarters: while left > 3 {
        let quarter = left / 4;
        passed += count_quarters(lows, passed, quarter, key);
        left -= 3 * quarter;
    }
    passed + count_few(lows, passed, left, key)
}

/// Counts the bounds from the place on that lie at or below the key, in whole quarters of the list,
/// by a look at three of them.
#[inline(always)]
fn count_quarters(lows: &[Key], place: usize, quarter: usize, key: Key) -> usize
    requires rise { IsStrictlyIncreasing lows.now }
    requires some { 0 < quarter }
    requires inside { place + 3 * quarter ≤ length lows.now }
    requires fits { place + 3 * quarter < 2 ^ 64 }
    requires from { place ≤ begun key lows.now }
    ensures three { result ≤ 3 * quarter }
    ensures least { place + result ≤ begun key lows.now }
    ensures most { result < 3 * quarter → begun key lows.now < place + result + quarter }
{
    let first = one_if_begun(lows, place + quarter - 1, key);
    let second = one_if_begun(lows, place + 2 * quarter - 1, key);
    let third = one_if_begun(lows, place + 3 * quarter - 1, key);
    (first + second + third) * quarter
}

/// Counts as many from the place on one by one.
#[inline(always)]
fn count_few(lows: &[Key], place: usize, left: usize, key: Key) -> usize
    requires rise { IsStrictlyIncreasing lows.now }
    requires inside { place + left ≤ length lows.now }
    requires fits { place + left < 2 ^ 64 }
    ensures { result ≡ min (begun key lows.now - place) left }
{
    let mut count = 0;
    for number in 0..left {
        count += one_if_begun(lows, place + number, key);
    }
    count
}

/// Returns 1 if the bound at the place is at or below the key, and 0 if not.
#[inline(always)]
fn one_if_begun(lows: &[Key], place: usize, key: Key) -> usize
    requires rise { IsStrictlyIncreasing lows.now }
    requires inside { place < length lows.now }
    ensures { result ≡ min (begun key lows.now - place) 1 }
{
    usize::from(lows[place] <= key)
}

fn check_number(trees: usize) -> Result<(), BadBounds>
    ensures fine { IsOk result ↔ (is_bad_number trees ≡ false) }
    ensures fault { IfErr result (λ fault. fault ≡ BadBounds.BadTrees) }
{
    if !(1..=MAX_TREES as usize).contains(&trees) {
        return Err(BadBounds::BadTrees);
    }
    Ok(())
}

/// Reports whether each key is above the one before it.
fn rise(lows: &[Key]) -> bool
    ensures { IsTrue result ↔ IsStrictlyIncreasing lows.now }
{
    for i in 1..lows.len() {
        if lows[i] <= lows[i - 1] {
            return false;
        }
    }
    true
}

/// Returns 0 and, above it, each quantile once.
fn quantiles(lows: Vec<Key>, sorted: &[Key], trees: u32) -> Vec<Key>
    requires empty { lows.items ≡ [] }
    requires room { trees ≤ vec_capacity lows }
    requires number { is_bad_number trees ≡ false }
    requires sorted { IsNonDecreasing sorted.now }
    ensures bounds { AreBounds result.items }
    ensures quantiles { AreAtQuantiles sorted.now trees result.items }
{
    let mut lows = lows;
    let mut last = 0;
    lows.push_reserved(last);
    for i in 1..trees as usize {
        let low = quantile(sorted, i, trees as usize);
        if last < low {
            lows.push_reserved(low);
            last = low;
        }
    }
    lows
}

/// Returns the key at the tree's part of the way through the sorted keys, or 0 if there are none.
fn quantile(sorted: &[Key], tree: usize, trees: usize) -> Key
    requires { tree < trees }
    ensures { result ≡ quantile sorted.now tree trees }
{
    let index = tree as u128 * sorted.len() as u128 / trees as u128;
    match sorted.get(index as usize) {
        Some(key) => *key,
        None => 0,
    }
}
