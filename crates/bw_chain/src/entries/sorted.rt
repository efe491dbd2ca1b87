//! Searches in a list of entries, as a base page has one.

ghost use Rattle.std.specs.Prelude.{◌≡◌, ◌≤◌, ◌<◌, ◌+◌, ◌-◌, ◌*◌, ◌^◌, min, length, take, drop, IsTrue, ◌↔◌};
ghost use Rattle.bw_keys.specs.Ranges.{end_of};
ghost use Rattle.bw_delta.specs.Entries.{at, below, from, first_from, last_below};
ghost use Rattle.bw_delta.specs.Slices.{list_of};
ghost use Rattle.bw_chain.specs.Ascends.{IsAscending};

use bw_delta::EntrySlice;
use bw_keys::{Fence, Key};

/// Counts the entries below the fence.
#[inline(always)]
fn count_below<X: Copy>(entries: EntrySlice<'_, X>, fence: Fence) -> usize
    requires ascending { IsAscending (list_of entries) }
    ensures within { result ≤ length (list_of entries.entry) }
    ensures before { let es = list_of entries.entry in below (end_of fence) es ≡ take result es }
    ensures after { let es = list_of entries.entry in from (end_of fence) es ≡ drop result es }
{
    match fence {
        Fence::Key(key) => count_below_key(entries, key),
        Fence::Top => entries.len(),
    }
}

/// Counts the entries below the key: first those of whole eighths of the list, and then those among
/// the eight entries where the key lies. It reads keys alone, and takes what comparisons say
/// without a branch, as no processor can predict the way that a search takes. It reads the ends of
/// all eighths, as none has to wait for another; a page of more than 64 entries is brought down to
/// these first.
#[inline(always)]
pub(crate) fn count_below_key<X: Copy>(entries: EntrySlice<'_, X>, key: Key) -> usize
    requires ascending { IsAscending (list_of entries) }
    ensures { result ≡ length (below key (list_of entries.entry)) }
{
    match entries.len().checked_sub(8) {
        Some(last) => {
            let passed = count_by_quarters(entries, key);
            let start = count_eighths(entries, passed, key).min(last);
            start + count_eight(entries, start + 8, key)
        }
        None => count_few(entries, key),
    }
}

/// Counts the entries below the key but for the last 64 of them at most. Each step compares the
/// keys at the ends of three quarters of the entries left. Few pages have so many entries that it
/// takes a step.
#[inline(always)]
fn count_by_quarters<X: Copy>(entries: EntrySlice<'_, X>, key: Key) -> usize
    requires ascending { IsAscending (list_of entries) }
    ensures least { result ≤ length (below key (list_of entries.entry)) }
    ensures most { length (below key (list_of entries.entry)) ≤ result + 64 }
{
    let mut passed = 0;
    let mut left = entries.len();
    'quarters: while left > 64 {
        let quarter = left / 4;
        passed += count_quarters(entries, passed, quarter, key);
        left -= 3 * quarter;
    }
    passed
}

/// Counts the entries from the place on that lie below the key, in whole quarters, of which it
/// looks at three.
#[inline(always)]
fn count_quarters<X: Copy>(
    entries: EntrySlice<'_, X>,
    place: usize,
    quarter: usize,
    key: Key,
) -> usize
    requires ascending { IsAscending (list_of entries) }
    requires some { 0 < quarter }
    requires inside { place + 3 * quarter ≤ length (list_of entries) }
    requires fits { place + 3 * quarter < 2 ^ 64 }
    requires from { place ≤ length (below key (list_of entries)) }
    ensures three { result ≤ 3 * quarter }
    ensures least { place + result ≤ length (below key (list_of entries.entry)) }
    ensures most { result < 3 * quarter →
        length (below key (list_of entries.entry)) < place + result + quarter }
{
    let first = one_if_below(entries, place + quarter - 1, key);
    let second = one_if_below(entries, place + 2 * quarter - 1, key);
    let third = one_if_below(entries, place + 3 * quarter - 1, key);
    (first + second + third) * quarter
}

/// Counts the entries below the key, of which there are 64 at most from the place on, but for those
/// in the eighth of the list where the key lies. The last entry of each eighth tells whether it
/// lies below the key. Each comparison only chooses a number, so the processor has no branch to
/// guess.
#[inline(always)]
fn count_eighths<X: Copy>(entries: EntrySlice<'_, X>, place: usize, key: Key) -> usize
    requires ascending { IsAscending (list_of entries) }
    requires some { 8 ≤ length (list_of entries) }
    requires from { place ≤ length (below key (list_of entries)) }
    requires upto { length (below key (list_of entries)) ≤ place + 64 }
    ensures least { result ≤ length (below key (list_of entries.entry)) }
    ensures most { length (below key (list_of entries.entry)) < result + 8 }
{
    let eighth = (entries.len() - place).min(64) / 8;
    let mut passed = place;
    let mut end = place;
    for _ in 0..8_usize {
        end += eighth;
        if is_below(entries, end - 1, key) {
            passed = end;
        }
    }
    passed
}

/// Counts the entries below the key one by one.
#[inline(always)]
fn count_few<X: Copy>(entries: EntrySlice<'_, X>, key: Key) -> usize
    requires ascending { IsAscending (list_of entries) }
    ensures { result ≡ length (below key (list_of entries.entry)) }
{
    let mut count = 0;
    for place in 0..entries.len() {
        count += one_if_below(entries, place, key);
    }
    count
}

/// Counts the entries below the key among the last eight before the end: the fourth of them tells
/// which three others are worth a look, and the last one stands for itself.
#[inline(always)]
fn count_eight<X: Copy>(entries: EntrySlice<'_, X>, end: usize, key: Key) -> usize
    requires ascending { IsAscending (list_of entries) }
    requires least { 8 ≤ end }
    requires inside { end ≤ length (list_of entries) }
    ensures { result ≡ min (length (below key (list_of entries.entry)) - (end - 8)) 8 }
{
    let four = 4 * one_if_below(entries, end - 5, key);
    let last = one_if_below(entries, end - 1, key);
    four + count_three(entries, end - 5 + four, key) + last
}

#[inline(always)]
fn count_three<X: Copy>(entries: EntrySlice<'_, X>, end: usize, key: Key) -> usize
    requires ascending { IsAscending (list_of entries) }
    requires least { 3 ≤ end }
    requires inside { end ≤ length (list_of entries) }
    ensures { result ≡ min (length (below key (list_of entries.entry)) - (end - 3)) 3 }
{
    one_if_below(entries, end - 3, key)
        + one_if_below(entries, end - 2, key)
        + one_if_below(entries, end - 1, key)
}

/// Returns 1 if the entry at the place lies below the key, and 0 if not.
#[inline(always)]
fn one_if_below<X: Copy>(entries: EntrySlice<'_, X>, place: usize, key: Key) -> usize
    requires ascending { IsAscending (list_of entries) }
    requires inside { place < length (list_of entries) }
    ensures { result ≡ min (length (below key (list_of entries.entry)) - place) 1 }
{
    usize::from(is_below(entries, place, key))
}

/// Reports whether the entry at the place lies below the key.
#[inline(always)]
fn is_below<X: Copy>(entries: EntrySlice<'_, X>, place: usize, key: Key) -> bool
    requires ascending { IsAscending (list_of entries) }
    requires inside { place < length (list_of entries) }
    ensures { IsTrue result ↔ (place < length (below key (list_of entries.entry))) }
{
    entries.key(place) < key
}

/// Returns the entries below the fence.
#[inline(always)]
pub(crate) fn below_fence<X: Copy>(entries: EntrySlice<'_, X>, fence: Fence) -> EntrySlice<'_, X>
    requires ascending { IsAscending (list_of entries) }
    ensures { list_of result ≡ below (end_of fence) (list_of entries.entry) }
{
    entries.split_at(count_below(entries, fence)).0
}

/// Returns the entries from the fence on.
#[inline(always)]
fn from_fence<X: Copy>(entries: EntrySlice<'_, X>, fence: Fence) -> EntrySlice<'_, X>
    requires ascending { IsAscending (list_of entries) }
    ensures { list_of result ≡ from (end_of fence) (list_of entries.entry) }
{
    entries.split_at(count_below(entries, fence)).1
}

/// Returns the entries from the fence on. Most often it is all of them, so the first is looked at
/// before any search.
#[inline(always)]
pub(crate) fn entries_from<X: Copy>(entries: EntrySlice<'_, X>, fence: Fence) -> EntrySlice<'_, X>
    requires ascending { IsAscending (list_of entries) }
    ensures { list_of result ≡ from (end_of fence) (list_of entries.entry) }
{
    let Some(least) = entries.first() else {
        return entries;
    };
    if fence.is_above(least.0) {
        from_fence(entries, fence)
    } else {
        entries
    }
}

/// Returns the first entry from the fence on.
#[inline(always)]
pub(crate) fn first_listed<X: Copy>(entries: EntrySlice<'_, X>, fence: Fence) -> Option<(Key, X)>
    requires ascending { IsAscending (list_of entries) }
    ensures { result ≡ first_from (end_of fence) (list_of entries.entry) }
{
    from_fence(entries, fence).first()
}

/// Returns the last entry below the fence.
#[inline(always)]
pub(crate) fn last_listed<X: Copy>(entries: EntrySlice<'_, X>, fence: Fence) -> Option<(Key, X)>
    requires ascending { IsAscending (list_of entries) }
    ensures { result ≡ last_below (end_of fence) (list_of entries.entry) }
{
    below_fence(entries, fence).last()
}

/// Returns what stands at the key.
#[tactic(auto, using(crate::proofs::Firsts::stands_at))]
#[inline(always)]
pub(crate) fn value_at<X: Copy>(entries: EntrySlice<'_, X>, key: Key) -> Option<X>
    requires ascending { IsAscending (list_of entries) }
    ensures { result ≡ at key (list_of entries.entry) }
{
    match first_listed(entries, Fence::Key(key)) {
        Some(entry) if entry.0 == key => Some(entry.1),
        _ => None,
    }
}
