#![tactic(auto, using(crate::proofs::Zips::zips))]

ghost use Rattle.std.specs.Prelude.{◌≡◌, ◌≤◌, ◌<◌, ◌++◌, ℕ, [], length, take, slice_set, slice_index_or, vec_capacity, vec_len, ◌↔◌, IsTrue, IfOk, OnOk, OnErr};
ghost use Rattle.std.specs.List.{zip, insert, remove};

use crate::entry_slice::EntrySlice;
use crate::fault::NoMemory;
use crate::moves::{move_down, move_up};
use bw_keys::Key;
use std::alloc::Allocator;
use std::marker::Model;

/// A list of entries: their keys, and what stands at each, in a list of its own.
#[derive(Drop)]
pub struct EntryList<X, A: Allocator> {
    keys: Vec<Key, A>,
    values: Vec<X, A>,
}

impl<X, A: Allocator> Model for EntryList<X, A> {
    ghost use Rattle.std.specs.Prelude.{◌≡◌, ℕ, List, length};
    ghost use Rattle.std.specs.Coded.{coded_list, coded×, coded_ℕ};
    ghost use Rattle.std.specs.List.{zip};

    ghost Value = { List (ℕ × X) };

    ghost coded = { coded_list (coded× coded_ℕ X.code) };

    ghost view = { λ list. zip list.keys.items list.values.items };

    ghost invariant = { λ list. length list.values.items ≡ length list.keys.items };
}

impl<X: Copy, A: Allocator> EntryList<X, A> {
    ghost use Rattle.bw_delta.specs.Slices.{list_of};

    /// Makes a list of no entries. It takes no memory.
    pub fn new(alloc: A) -> EntryList<X, A>
    where
        A: Copy,
        ensures { result ≡ [] }
    {
        EntryList {
            keys: Vec::new(alloc),
            values: Vec::new(alloc),
        }
    }

    /// Makes a list of these keys, each with the value at its place.
    pub fn of_lists(keys: Vec<Key, A>, values: Vec<X, A>) -> EntryList<X, A>
        requires { length values.items ≡ length keys.items }
        ensures { result ≡ zip keys.items values.items }
    {
        EntryList { keys, values }
    }

    /// Makes a list of these entries.
    pub fn from_entries(alloc: A, entries: &[(Key, X)]) -> Result<EntryList<X, A>, NoMemory>
    where
        A: Copy,
        ensures { IfOk result (λ list. list ≡ entries.now) }
    {
        let mut keys = Vec::with_capacity(alloc, entries.len())?;
        let mut values = Vec::with_capacity(alloc, entries.len())?;
        for entry in entries {
            keys.push(entry.0)?;
            values.push(entry.1)?;
        }
        Ok(EntryList { keys, values })
    }

    /// Copies the entries. The copy has room for `room` of them, or for all if that is more, before
    /// it asks for memory again.
    #[tactic(auto, using(crate::proofs::Zips::zips), unfolding(crate::specs::Slices::list_of))]
    pub fn copied(
        alloc: A,
        entries: EntrySlice<'_, X>,
        room: usize,
    ) -> Result<EntryList<X, A>, NoMemory>
    where
        A: Copy,
        ensures { IfOk result (λ copy. copy ≡ list_of entries.entry) }
    {
        let room = room.max(entries.len());
        Ok(EntryList {
            keys: with_room(alloc, entries.keys, room)?,
            values: with_room(alloc, entries.values, room)?,
        })
    }

    /// Lends the entries.
    #[tactic(auto, using(crate::proofs::Zips::zips), unfolding(crate::specs::Slices::list_of))]
    #[inline(always)]
    pub fn as_slice(&self) -> EntrySlice<'_, X>
        ensures { list_of result ≡ self.now }
    {
        EntrySlice {
            keys: self.keys.as_slice(),
            values: self.values.as_slice(),
        }
    }

    /// Returns the number of entries.
    #[inline(always)]
    pub fn len(&self) -> usize
        ensures { result ≡ length self.now }
    {
        self.keys.len()
    }

    /// Reports whether there are no entries.
    #[inline(always)]
    pub fn is_empty(&self) -> bool
        ensures { IsTrue result ↔ (length self.now ≡ 0) }
    {
        self.len() == 0
    }

    /// Returns the number of entries that it has room for before it asks for memory again.
    pub fn capacity(&self) -> usize
        ensures { length self.now ≤ result }
    {
        self.keys.capacity().min(self.values.capacity())
    }

    /// Returns the allocator.
    #[inline(always)]
    pub fn allocator(&self) -> &A {
        self.keys.allocator()
    }

    /// Inserts an entry before the one at the place, counted from 0.
    #[inline(always)]
    pub fn insert(&mut self, place: usize, key: Key, value: X) -> Result<(), NoMemory>
        requires { place ≤ length self.old }
        ensures inserted { OnOk result (self.new ≡ insert self.old place (key, value)) }
        ensures unchanged { OnErr result (self.new ≡ self.old) }
    {
        make_room(&mut self.keys)?;
        make_room(&mut self.values)?;
        self.keys.push_reserved(key);
        self.values.push_reserved(value);
        let keys = self.keys.as_mut_slice();
        let values = self.values.as_mut_slice();
        move_up(keys, values, place);
        keys[place] = key;
        values[place] = value;
        Ok(())
    }

    /// Puts another value in the entry at the place, counted from 0.
    #[inline(always)]
    pub fn set_value(&mut self, place: usize, value: X)
        requires { place < length self.old }
        ensures { (d : ℕ × X) →
            self.new ≡ slice_set self.old place ((slice_index_or self.old place d).0, value) }
    {
        self.values[place] = value;
    }

    /// Takes out the entry at the place, counted from 0.
    #[inline(always)]
    pub fn remove(&mut self, place: usize)
        requires { place < length self.old }
        ensures { self.new ≡ remove self.old place }
    {
        move_down(self.keys.as_mut_slice(), self.values.as_mut_slice(), place);
        let _key = self.keys.take_last();
        let _value = self.values.take_last();
    }

    /// Appends the entries. Fails for want of memory, with the list as it was.
    #[tactic(auto, using(crate::proofs::Zips::zips), unfolding(crate::specs::Slices::list_of))]
    pub fn append(&mut self, entries: EntrySlice<'_, X>) -> Result<(), NoMemory>
        ensures appended { OnOk result (self.new ≡ self.old ++ list_of entries.entry) }
        ensures unchanged { OnErr result (self.new ≡ self.old) }
    {
        self.keys.reserve(entries.keys.len())?;
        self.values.extend_from_slice(entries.values)?;
        match self.keys.extend_from_slice(entries.keys) {
            Ok(()) => Ok(()),
            Err(_) => unreachable!(),
        }
    }

    /// Takes out the entries after the first `count`.
    pub fn truncate(&mut self, count: usize)
        ensures { self.new ≡ take count self.old }
    {
        self.keys.truncate(count);
        self.values.truncate(count);
    }
}

/// Makes room for one more item. Memory is asked for only if the list is full.
#[inline(always)]
fn make_room<T, A: Allocator>(items: &mut Vec<T, A>) -> Result<(), NoMemory>
    ensures items { items.new.items ≡ items.old.items }
    ensures room { OnOk result (vec_len items.new < vec_capacity items.new) }
{
    if items.len() < items.capacity() {
        return Ok(());
    }
    items.reserve(1)?;
    Ok(())
}

/// Copies the items, with room for as many as `room`.
fn with_room<T: Copy, A: Allocator>(
    alloc: A,
    items: &[T],
    room: usize,
) -> Result<Vec<T, A>, NoMemory>
    ensures { IfOk result (λ copy. copy.items ≡ items.now) }
{
    let mut copy = Vec::with_capacity(alloc, room)?;
    copy.extend_from_slice(items)?;
    Ok(copy)
}
