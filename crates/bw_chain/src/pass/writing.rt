//! The entries of a base page with the edits, written one after the other.

ghost use Rattle.std.specs.Prelude.{◌≡◌, ◌≤◌, ◌<◌, ◌+◌, ◌++◌, length, take, drop, slice_set};
ghost use Rattle.std.specs.List.{zip};
ghost use Rattle.bw_delta.specs.Entries.{below, from};
ghost use Rattle.bw_delta.specs.Slices.{list_of};
ghost use Rattle.bw_chain.specs.Ascends.{IsAscending};
ghost use Rattle.bw_chain.specs.Passing.Edited.{IsFalling, edited, put_count, puts};

use crate::pass::around::behind;
use bw_delta::EntrySlice;
use bw_keys::Key;

/// Counts the edits that put an entry.
pub(crate) fn count_puts<X: Copy>(edits: &[(Key, Option<X>)]) -> usize
    ensures { result ≡ put_count edits.now }
{
    let mut count = 0;
    for i in 0..edits.len() {
        count += puts(edits[i].1);
    }
    count
}

/// Returns 1 for an edit that puts an entry, and 0 for another.
pub(crate) fn puts<X: Copy>(edit: Option<X>) -> usize
    ensures { result ≡ puts edit }
{
    match edit {
        Some(_) => 1,
        None => 0,
    }
}

/// Writes the entries with the edits from the start on, but for the entries after the last edit.
/// Returns the place for these, and the entries themselves.
#[inline(always)]
pub(crate) fn write_edited<'a, X: Copy>(
    entries: EntrySlice<'a, X>,
    edits: &[(Key, Option<X>)],
    keys: &mut [Key],
    values: &mut [X],
    start: usize,
) -> (usize, EntrySlice<'a, X>)
    requires ascending { IsAscending (list_of entries) }
    requires falling { IsFalling edits.now }
    requires even { length values.old ≡ length keys.old }
    requires room { start + length (list_of entries) + put_count edits.now ≤ length keys.old }
    ensures within { result.0 + length (list_of result.1) ≤ length keys.new }
    ensures as_many { length keys.new ≡ length keys.old }
    ensures even { length values.new ≡ length keys.new }
    ensures written { take result.0 (zip keys.new values.new) ++ list_of result.1
        ≡ take start (zip keys.old values.old) ++ edited edits.now (list_of entries.entry) }
{
    let (mut rest, mut left, mut end) = (entries, edits, start);
    'edits: while let Some((edit, greater)) = left.split_last() {
        let (key, value) = *edit;
        let count = copy_before(rest, key, keys, values, end);
        end += count;
        rest = behind(rest, count, key);
        match value {
            Some(put) => {
                write(keys, values, end, (key, put));
                end += 1;
            }
            None => {}
        }
        left = greater;
    }
    (end, rest)
}

/// Writes the entries before the key from the place on, and returns their number. It writes them
/// two by two, and then the one that is left, if there is one.
#[inline(always)]
fn copy_before<X: Copy>(
    entries: EntrySlice<'_, X>,
    key: Key,
    keys: &mut [Key],
    values: &mut [X],
    place: usize,
) -> usize
    requires ascending { IsAscending (list_of entries) }
    requires even { length values.old ≡ length keys.old }
    requires room { place + length (list_of entries) ≤ length keys.old }
    ensures within { result ≤ length (list_of entries.entry) }
    ensures before { below key (list_of entries.entry) ≡ take result (list_of entries.entry) }
    ensures after { from key (list_of entries.entry) ≡ drop result (list_of entries.entry) }
    ensures as_many { length keys.new ≡ length keys.old }
    ensures even { length values.new ≡ length keys.new }
    ensures written { take (place + result) (zip keys.new values.new)
        ≡ take place (zip keys.old values.old) ++ take result (list_of entries.entry) }
{
    let count = copy_by_twos(entries, key, keys, values, place);
    if count == entries.len() {
        return count;
    }
    let next = entries.key(count);
    if key <= next {
        return count;
    }
    write(keys, values, place + count, entries.entry(count));
    count + 1
}

/// Writes the entries before the key two by two from the place on, and returns the number written.
/// An odd one is left out.
#[inline(always)]
fn copy_by_twos<X: Copy>(
    entries: EntrySlice<'_, X>,
    key: Key,
    keys: &mut [Key],
    values: &mut [X],
    place: usize,
) -> usize
    requires ascending { IsAscending (list_of entries) }
    requires even { length values.old ≡ length keys.old }
    requires room { place + length (list_of entries) ≤ length keys.old }
    ensures within { result ≤ length (list_of entries.entry) }
    ensures before { let es = list_of entries.entry in
        below key es ≡ take result es ++ below key (drop result es) }
    ensures after { let es = list_of entries.entry in from key es ≡ from key (drop result es) }
    ensures last { length (below key (drop result (list_of entries.entry))) ≤ 1 }
    ensures as_many { length keys.new ≡ length keys.old }
    ensures even { length values.new ≡ length keys.new }
    ensures written { take (place + result) (zip keys.new values.new)
        ≡ take place (zip keys.old values.old) ++ take result (list_of entries.entry) }
{
    let mut i = 0;
    'twos: while 2 <= entries.len() - i {
        let next = entries.key(i + 1);
        if key <= next {
            return i;
        }
        write(keys, values, place + i, entries.entry(i));
        write(keys, values, place + i + 1, entries.entry(i + 1));
        i += 2;
    }
    i
}

/// Writes the entry over the one at the place.
#[inline(always)]
fn write<X: Copy>(keys: &mut [Key], values: &mut [X], place: usize, entry: (Key, X))
    requires even { length values.old ≡ length keys.old }
    requires inside { place < length keys.old }
    ensures as_many { length keys.new ≡ length keys.old }
    ensures even { length values.new ≡ length keys.new }
    ensures written { zip keys.new values.new ≡ slice_set (zip keys.old values.old) place entry }
{
    keys[place] = entry.0;
    values[place] = entry.1;
}
