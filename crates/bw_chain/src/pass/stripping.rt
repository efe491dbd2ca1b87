//! A list that is compared with the entries that a pass hands on.

ghost use Rattle.std.specs.Prelude.{◌≡◌, ◌≢◌, ◌↔◌, ◌++◌, List, ℕ, length, true, IsTrue, MatchOption};
ghost use Rattle.bw_delta.specs.Entries.{from};
ghost use Rattle.bw_delta.specs.Slices.{list_of};
ghost use Rattle.bw_chain.specs.Ascends.{IsAscending};
ghost use Rattle.bw_chain.specs.Passing.Edited.{IsFalling, edited, entry_of};
ghost use Rattle.bw_chain.specs.Passing.Rests.{Begins, BeginsOtherwise};

use crate::entries::sorted::entries_from;
use crate::entries::value::EntryValue;
use crate::pass::around::split_around;
use crate::pass::sink::Sink;
use bw_delta::EntrySlice;
use bw_keys::{Fence, Key};

/// The rest of the list. Entries below the fence are passed over.
#[derive(Drop)]
pub(crate) struct Compared<'a, X> {
    pub(crate) rest: EntrySlice<'a, X>,
    pub(crate) from: Fence,
}

/// The list goes on otherwise.
pub(crate) struct Differs;

impl<'a, X: EntryValue> Sink<X> for Compared<'a, X> {
    ghost use Rattle.std.specs.Prelude.{◌≡◌};
    ghost use Rattle.std.proofs.Common.{◌∙◌};
    ghost use Rattle.bw_chain.specs.Passing.Rests.{Begins, BeginsOtherwise, begins_joined, otherwise_more, otherwise_later};

    type Stop = Differs;

    ghost takes = { λ s es t.
        Begins s.from (list_of s.rest) es (list_of t.rest) × (t.from ≡ s.from) };

    ghost refuses = { λ s es. BeginsOtherwise s.from (list_of s.rest) es };

    fn take_edited(
        &mut self,
        keys: &[Key],
        values: &[X],
        edits: &[(Key, Option<X>)],
    ) -> Result<(), Differs> {
        match strip_edited(self.rest, self.from, EntrySlice::of(keys, values), edits) {
            Some(rest) => {
                self.rest = rest;
                Ok(())
            }
            None => Err(Differs),
        }
    }

    ghost takes_joined = { λ s t u es fs first second. (
      begins_joined s.from t.from (list_of s.rest) (list_of t.rest) (list_of u.rest) es fs
          first.1 first.0 second.0,
      second.1 ∙ first.1,
    ) };

    ghost refuses_more = { λ s es fs other. otherwise_more s.from (list_of s.rest) es fs other };

    ghost refuses_later = { λ s t es fs first other.
        otherwise_later s.from t.from (list_of s.rest) (list_of t.rest) es fs first.1 first.0
        other };
}

/// Returns what comes after the entries with the edits, if the list begins with those from the
/// fence on.
fn strip_edited<'a, X: EntryValue>(
    list: EntrySlice<'a, X>,
    fence: Fence,
    entries: EntrySlice<'_, X>,
    edits: &[(Key, Option<X>)],
) -> Option<EntrySlice<'a, X>>
    requires ascending { IsAscending (list_of entries) }
    requires falling { IsFalling edits.now }
    ensures { MatchOption result
        (BeginsOtherwise fence (list_of list.entry) (edited edits.now (list_of entries.entry)))
        (λ rest. Begins fence (list_of list.entry) (edited edits.now (list_of entries.entry))
        (list_of rest)) }
{
    let (mut list, mut rest, mut left) = (list, entries, edits);
    'edits: while let Some((edit, greater)) = left.split_last() {
        let (key, value) = *edit;
        let (before, after) = split_around(rest, key);
        let Some(behind) = strip_front(list, entries_from(before, fence)) else {
            return None;
        };
        let Some(behind) = strip_edit(behind, fence, key, value) else {
            return None;
        };
        list = behind;
        rest = after;
        left = greater;
    }
    match strip_front(list, entries_from(rest, fence)) {
        Some(behind) => Some(behind),
        None => None,
    }
}

/// Returns what comes after the entry that the edit puts, if the list begins with that entry or it
/// lies below the fence.
fn strip_edit<'a, X: EntryValue>(
    list: EntrySlice<'a, X>,
    fence: Fence,
    key: Key,
    edit: Option<X>,
) -> Option<EntrySlice<'a, X>>
    ensures { MatchOption result
        (BeginsOtherwise fence (list_of list.entry) (entry_of key edit))
        (λ rest. Begins fence (list_of list.entry) (entry_of key edit) (list_of rest)) }
{
    match edit {
        Some(value) if !fence.is_above(key) => match list.split_first() {
            Some((first, rest)) if first.0 == key && first.1.is_same(value) => Some(rest),
            _ => None,
        },
        _ => Some(list),
    }
}

/// Returns what comes after the front, if the list begins with it.
fn strip_front<'a, X: EntryValue>(
    list: EntrySlice<'a, X>,
    front: EntrySlice<'_, X>,
) -> Option<EntrySlice<'a, X>>
    ensures { MatchOption result
        ((rest : List (ℕ × X)) → list_of list.entry ≢ list_of front.entry ++ rest)
        (λ rest. list_of list.entry ≡ list_of front.entry ++ list_of rest) }
{
    if list.len() < front.len() {
        return None;
    }
    let (head, rest) = list.split_at(front.len());
    if are_same(head, front) {
        Some(rest)
    } else {
        None
    }
}

/// Reports whether the entries are the same, one by one.
fn are_same<X: EntryValue>(one: EntrySlice<'_, X>, other: EntrySlice<'_, X>) -> bool
    requires as_many { length (list_of one) ≡ length (list_of other) }
    ensures { IsTrue result ↔ (list_of one.entry ≡ list_of other.entry) }
{
    for i in 0..one.len() {
        let (own, its) = (one.entry(i), other.entry(i));
        if own.0 != its.0 || !own.1.is_same(its.1) {
            return false;
        }
    }
    true
}
