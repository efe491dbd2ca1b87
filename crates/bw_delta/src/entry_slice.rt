#![tactic(auto, using(crate::proofs::Zips::zips), unfolding(crate::specs::Slices::list_of))]

ghost use Rattle.std.specs.Prelude.{◌≡◌, length};

use bw_keys::Key;
use std::alloc::AllocError;

/// Entries that lie side by side in a page, lent: their keys, and what stands at each, in a list of
/// its own. So a search reads keys alone.
pub struct EntrySlice<'a, X> {
    pub keys: &'a [Key],
    pub values: &'a [X],
    pub ghost even: { length values.now ≡ length keys.now },
}

impl<'a, X> Copy for EntrySlice<'a, X> {}

impl<'a, X> Clone for EntrySlice<'a, X> {
    ghost use Rattle.std.specs.Prelude.{⊤};

    ghost is_clone = { λ slice copy. copy ≡ slice };

    ghost is_infallible = { λ slice. ⊤ };

    fn clone(&self) -> Result<EntrySlice<'a, X>, AllocError> {
        Ok(*self)
    }
}

impl<'a, X: Copy> EntrySlice<'a, X> {
    ghost use Rattle.std.specs.Prelude.{◌≤◌, ◌<◌, ◌-◌, ℕ, [], ◌∷◌, ◌++◌, take, drop, Some, IsTrue, ◌↔◌, MatchOption, slice_get, slice_index_or};
    ghost use Rattle.std.specs.List.{zip};
    ghost use Rattle.bw_delta.specs.Slices.{list_of, HasKeyAt};

    /// Makes a slice of these keys, each with the value at its place.
    #[inline(always)]
    pub fn of(keys: &'a [Key], values: &'a [X]) -> EntrySlice<'a, X>
        requires { length values.now ≡ length keys.now }
        ensures { list_of result ≡ zip keys.now values.now }
    {
        EntrySlice { keys, values }
    }

    /// Returns the slice of no entries.
    #[inline(always)]
    pub fn empty() -> EntrySlice<'a, X>
        ensures { list_of result ≡ [] }
    {
        EntrySlice {
            keys: &[],
            values: &[],
        }
    }

    /// Returns the number of entries.
    #[inline(always)]
    pub fn len(self) -> usize
        ensures { result ≡ length (list_of self.entry) }
    {
        self.keys.len()
    }

    /// Reports whether there are no entries.
    #[inline(always)]
    pub fn is_empty(self) -> bool
        ensures { IsTrue result ↔ (list_of self.entry ≡ []) }
    {
        self.keys.is_empty()
    }

    /// Returns the key of the entry at the place, counted from 0.
    #[inline(always)]
    pub fn key(self, place: usize) -> Key
        requires { place < length (list_of self) }
        ensures { HasKeyAt (list_of self.entry) place result }
    {
        self.keys[place]
    }

    /// Returns the entry at the place, counted from 0.
    #[inline(always)]
    pub fn entry(self, place: usize) -> (Key, X)
        requires { place < length (list_of self) }
        ensures { result ≡ slice_index_or (list_of self.entry) place result }
    {
        (self.keys[place], self.values[place])
    }

    /// Returns the entry at the place, counted from 0, if there is one.
    #[inline(always)]
    pub fn get(self, place: usize) -> Option<(Key, X)>
        ensures { result ≡ slice_get (list_of self.entry) place }
    {
        if place < self.len() {
            Some(self.entry(place))
        } else {
            None
        }
    }

    /// Returns the first entry, if there is one.
    #[inline(always)]
    pub fn first(self) -> Option<(Key, X)>
        ensures { result ≡ slice_get (list_of self.entry) 0 }
    {
        self.get(0)
    }

    /// Returns the last entry, if there is one.
    #[inline(always)]
    pub fn last(self) -> Option<(Key, X)>
        ensures { result ≡ slice_get (list_of self.entry) (length (list_of self.entry) - 1) }
    {
        match self.len().checked_sub(1) {
            Some(place) => Some(self.entry(place)),
            None => None,
        }
    }

    /// Returns the entries before the place, and those from it on.
    #[inline(always)]
    pub fn split_at(self, place: usize) -> (EntrySlice<'a, X>, EntrySlice<'a, X>)
        requires { place ≤ length (list_of self) }
        ensures front { list_of result.0 ≡ take place (list_of self.entry) }
        ensures back { list_of result.1 ≡ drop place (list_of self.entry) }
        ensures parts { list_of self.entry ≡ list_of result.0 ++ list_of result.1 }
        ensures front_len { length (list_of result.0) ≡ place }
    {
        let (keys, later_keys) = self.keys.split_at(place);
        let (values, later_values) = self.values.split_at(place);
        let front = EntrySlice { keys, values };
        let back = EntrySlice {
            keys: later_keys,
            values: later_values,
        };
        (front, back)
    }

    /// Returns the first entry and the others, if there is one.
    #[inline(always)]
    pub fn split_first(self) -> Option<((Key, X), EntrySlice<'a, X>)>
        ensures { MatchOption result (list_of self.entry ≡ [])
            (λ parts. list_of self.entry ≡ parts.0 ∷ list_of parts.1) }
    {
        let (key, keys) = self.keys.split_first()?;
        let (value, values) = self.values.split_first()?;
        Some(((*key, *value), EntrySlice { keys, values }))
    }

    /// Returns the last entry and the others, if there is one.
    #[inline(always)]
    pub fn split_last(self) -> Option<((Key, X), EntrySlice<'a, X>)>
        ensures { MatchOption result (list_of self.entry ≡ [])
            (λ parts. list_of self.entry ≡ list_of parts.1 ++ parts.0 ∷ []) }
    {
        let (key, keys) = self.keys.split_last()?;
        let (value, values) = self.values.split_last()?;
        Some(((*key, *value), EntrySlice { keys, values }))
    }
}
