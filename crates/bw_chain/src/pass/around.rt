//! The entries round a key. The keys of a pass lie close together, so the entries between them are
//! counted one by one.

ghost use Rattle.std.specs.Prelude.{◌≡◌, ◌≤◌, ◌+◌, length, take, drop};
ghost use Rattle.bw_delta.specs.Entries.{below, from};
ghost use Rattle.bw_delta.specs.Slices.{list_of};
ghost use Rattle.bw_chain.specs.Ascends.{IsAscending};

use bw_delta::EntrySlice;
use bw_keys::Key;

/// Returns the entries before the key, and those after it.
pub(crate) fn split_around<X: Copy>(
    entries: EntrySlice<'_, X>,
    key: Key,
) -> (EntrySlice<'_, X>, EntrySlice<'_, X>)
    requires ascending { IsAscending (list_of entries) }
    ensures before { list_of result.0 ≡ below key (list_of entries.entry) }
    ensures after { list_of result.1 ≡ from (key + 1) (list_of entries.entry) }
{
    let count = count_before(entries, key);
    let (front, _) = entries.split_at(count);
    (front, behind(entries, count, key))
}

/// Returns the entries after the key, given the number of those before it.
#[inline(always)]
pub(crate) fn behind<X: Copy>(
    entries: EntrySlice<'_, X>,
    count: usize,
    key: Key,
) -> EntrySlice<'_, X>
    requires ascending { IsAscending (list_of entries) }
    requires within { count ≤ length (list_of entries) }
    requires after { from key (list_of entries) ≡ drop count (list_of entries) }
    ensures { list_of result ≡ from (key + 1) (list_of entries.entry) }
{
    let (_, rest) = entries.split_at(count);
    match rest.split_first() {
        Some((first, behind)) => { if first.0 == key { behind } else { rest } }
        None => rest,
    }
}

/// Counts the entries before the key, one by one.
fn count_before<X: Copy>(entries: EntrySlice<'_, X>, key: Key) -> usize
    requires ascending { IsAscending (list_of entries) }
    ensures within { result ≤ length (list_of entries.entry) }
    ensures before { below key (list_of entries.entry) ≡ take result (list_of entries.entry) }
    ensures after { from key (list_of entries.entry) ≡ drop result (list_of entries.entry) }
{
    for i in 0..entries.len() {
        let here = entries.key(i);
        if key <= here {
            return i;
        }
    }
    entries.len()
}
