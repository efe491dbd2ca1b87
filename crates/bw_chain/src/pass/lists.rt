//! Keys and values in two lists, as a base page has them.

ghost use Rattle.std.specs.Prelude.{OnOk};
ghost use Rattle.bw_delta.specs.Slices.{list_of};
ghost use Rattle.bw_chain.specs.Ascends.{IsAscending};
ghost use Rattle.bw_chain.specs.Passing.Appends.{GoOn};
ghost use Rattle.bw_chain.specs.Passing.Edited.{IsFalling, edited};

use crate::entries::value::EntryValue;
use crate::pass::sink::Sink;
use crate::pass::writing::{count_puts, write_edited};
use bw_delta::{EntrySlice, NoMemory};
use bw_keys::Key;
use std::alloc::Allocator;

/// The keys of entries, and the value of each, as a pass hands them on.
#[derive(Drop)]
pub(crate) struct Lists<X, A: Allocator> {
    pub(crate) keys: Vec<Key, A>,
    pub(crate) values: Vec<X, A>,
}

impl<X: EntryValue, A: Allocator> Sink<X> for Lists<X, A> {
    ghost use Rattle.bw_chain.specs.Passing.Appends.{go_on_twice};

    type Stop = NoMemory;

    ghost takes = { λ s es t. GoOn s.keys.items s.values.items es t.keys.items t.values.items };

    ghost refuses = { λ s es. Unit {0} };

    fn take_edited(
        &mut self,
        keys: &[Key],
        values: &[X],
        edits: &[(Key, Option<X>)],
    ) -> Result<(), NoMemory> {
        append_edited(
            &mut self.keys,
            &mut self.values,
            X::blank(),
            EntrySlice::of(keys, values),
            edits,
        )
    }

    ghost takes_joined = { λ s t u es fs first second.
        go_on_twice s.keys.items s.values.items t.keys.items t.values.items
        u.keys.items u.values.items es fs first second };

    ghost refuses_more = { λ s es fs refused. tt };

    ghost refuses_later = { λ s t es fs first refused. tt };
}

/// Appends the entries with the edits, which come with the greatest key first. The room is filled
/// first and then written over, as lists that grew entry by entry would keep their lengths in
/// memory.
fn append_edited<X: Copy, A: Allocator>(
    keys: &mut Vec<Key, A>,
    values: &mut Vec<X, A>,
    blank: X,
    entries: EntrySlice<'_, X>,
    edits: &[(Key, Option<X>)],
) -> Result<(), NoMemory>
    requires ascending { IsAscending (list_of entries) }
    requires falling { IsFalling edits.now }
    ensures { OnOk result (GoOn keys.old.items values.old.items
        (edited edits.now (list_of entries.entry)) keys.new.items values.new.items) }
{
    let start = keys.len();
    let Some(room) = start.checked_add(entries.len()) else {
        return Err(NoMemory);
    };
    let Some(room) = room.checked_add(count_puts(edits)) else {
        return Err(NoMemory);
    };
    keys.resize(room, 0)?;
    values.resize(room, blank)?;
    let (end, rest) = write_edited(
        entries,
        edits,
        keys.as_mut_slice(),
        values.as_mut_slice(),
        start,
    );
    keys.truncate(end);
    values.truncate(end);
    keys.extend_from_slice(rest.keys)?;
    values.extend_from_slice(rest.values)?;
    Ok(())
}
