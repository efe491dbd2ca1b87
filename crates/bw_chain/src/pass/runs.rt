//! Pairs of a base page that are appended to a list, as they lie side by side in the page.

ghost use Rattle.std.specs.Prelude.{◌≡◌, ◌≤◌, ◌<◌, ◌+◌, ◌++◌, length, take, vec_capacity, OnOk, OnErr};
ghost use Rattle.bw_delta.specs.Slices.{list_of};
ghost use Rattle.bw_chain.specs.Ascends.{IsAscending};
ghost use Rattle.bw_chain.specs.Passing.Edited.{IsFalling, edited, entry_of};

use crate::pass::around::split_around;
use crate::pass::sink::Sink;
use bw_delta::{EntrySlice, NoMemory};
use bw_keys::Key;
use std::alloc::Allocator;

/// A list takes the pairs that it has room for.
impl<B: Allocator> Sink<u64> for Vec<(Key, u64), B> {
    ghost use Rattle.std.specs.Prelude.{◌≡◌, ◌++◌};
    ghost use Rattle.bw_chain.specs.Passing.Appends.{appended_twice};

    type Stop = NoMemory;

    ghost takes = { λ s es t. t.items ≡ s.items ++ es };

    ghost refuses = { λ s es. Unit {0} };

    fn take_edited(
        &mut self,
        keys: &[Key],
        values: &[u64],
        edits: &[(Key, Option<u64>)],
    ) -> Result<(), NoMemory> {
        append_edited(self, EntrySlice::of(keys, values), edits)
    }

    ghost takes_joined = { λ s t u es fs first second.
        appended_twice s.items t.items u.items es fs first second };

    ghost refuses_more = { λ s es fs refused. tt };

    ghost refuses_later = { λ s t es fs first refused. tt };
}

/// Appends the pairs with the edits, which come with the greatest key first.
fn append_edited<B: Allocator>(
    list: &mut Vec<(Key, u64), B>,
    entries: EntrySlice<'_, u64>,
    edits: &[(Key, Option<u64>)],
) -> Result<(), NoMemory>
    requires ascending { IsAscending (list_of entries) }
    requires falling { IsFalling edits.now }
    ensures { OnOk result
        (list.new.items ≡ list.old.items ++ edited edits.now (list_of entries.entry)) }
{
    let (mut rest, mut left) = (entries, edits);
    'edits: while let Some((edit, greater)) = left.split_last() {
        let (key, value) = *edit;
        let (before, after) = split_around(rest, key);
        append_run(list, before)?;
        append_edit(list, key, value)?;
        rest = after;
        left = greater;
    }
    append_run(list, rest)
}

/// Appends the pair that the edit puts, if it does.
#[inline(always)]
fn append_edit<B: Allocator>(
    list: &mut Vec<(Key, u64), B>,
    key: Key,
    edit: Option<u64>,
) -> Result<(), NoMemory>
    ensures { OnOk result (list.new.items ≡ list.old.items ++ entry_of key edit) }
{
    match edit {
        Some(value) => Ok(list.push((key, value))?),
        None => Ok(()),
    }
}

/// Appends the pairs to the list.
#[inline(always)]
pub(crate) fn append_run<B: Allocator>(
    list: &mut Vec<(Key, u64), B>,
    run: EntrySlice<'_, u64>,
) -> Result<(), NoMemory>
    ensures items { OnOk result (list.new.items ≡ list.old.items ++ list_of run.entry) }
    ensures capacity { vec_capacity list.old ≤ vec_capacity list.new }
    ensures full { OnErr result
        (vec_capacity list.old < length list.old.items + length (list_of run.entry)) }
{
    let count = run.len();
    list.reserve(count)?;
    let start = list.len();
    let room = start + count;
    list.resize(room, (0, 0))?;
    write_run(list.as_mut_slice(), start, run);
    Ok(())
}

/// Writes the pairs over those from the place on.
#[inline(always)]
fn write_run(list: &mut [(Key, u64)], place: usize, run: EntrySlice<'_, u64>)
    requires { place + length (list_of run) ≡ length list.old }
    ensures { list.new ≡ take place list.old ++ list_of run.entry }
{
    for i in 0..run.len() {
        list[place + i] = run.entry(i);
    }
}
