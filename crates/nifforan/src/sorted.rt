//! A map of pairs whose keys rise, which fills its leaves from left to right.

ghost use Rattle.std.specs.Prelude.{◌≡◌, ◌<◌, ◌++◌, ◌∷◌, [], length, None, Err, IfOk, IfErr, OnOk, OnErr, true, false};
ghost use Rattle.std.specs.Prelude.{IfSome, IfNone};
ghost use Rattle.std.specs.Iterator.{IsFiniteIterable};
ghost use Rattle.bw_keys.specs.Ranges.{key_count};
ghost use Rattle.bw_delta.specs.Entries.{put};
ghost use Rattle.bw_delta.specs.Slices.{list_of};
ghost use Rattle.bw_chain.specs.Ascends.{IsAscending};
ghost use Rattle.bw_procedures.specs.declared.fault.Fault.TheVariants as faults;
ghost use Rattle.nifforan.specs.Rising.{AppendsAll, CutsAll, CutsBehind, HasAllOf, IsCutShort, IsFullOfRising};
ghost use Rattle.nifforan.specs.Rising.{IsSortedFault, IsUnsortedBehind};
ghost use Rattle.nifforan.specs.Rising.{is_above};
ghost use Rattle.nifforan.specs.Settings.{first_bad_setting};

use crate::edge::Edge;
use crate::map::Map;
use crate::run::Run;
use bw_delta::EntrySlice;
use bw_keys::{Config, Key};
use bw_procedures::Fault;
use bw_table::NewFault;
use std::alloc::{Allocator, Global};
use thiserror::Error;

/// Why no map was made of pairs with rising keys.
#[derive(Clone, Copy, Debug, PartialEq, Eq, Error)]
pub enum SortedFault {
    /// The empty map couldn't be made.
    #[error("{0}")]
    New(NewFault),
    /// The key of the pair with this number, counted from 0, isn't above that of the pair before.
    #[error("pair {0} isn't above the one before")]
    Unsorted(u64),
    /// A pair couldn't be put.
    #[error("{0}")]
    Put(Fault),
}

impl<A: Allocator + Copy> Map<A> {
    /// Creates a map with the pairs, whose keys must rise: see `new`. It fills one leaf after the
    /// other, so it takes a fraction of the time of as many puts, and few pages.
    pub fn from_sorted<U: IntoIterator<Item = (Key, u64)> + Drop>(
        machine: Global,
        alloc: A,
        config: Config,
        pairs: U,
    ) -> Result<Map<A>, SortedFault>
        requires { IsFiniteIterable U.into_iter_gives U.IntoIter.can_next U.IntoIter.remaining
            pairs }
        ensures pairs { IfOk result (λ map.
            HasAllOf U.into_iter_gives U.IntoIter.next_gives pairs map.pairs) }
        ensures config { IfOk result (λ map. map.config ≡ config) }
        ensures fine { OnOk result (first_bad_setting config ≡ None) }
        ensures fault { IfErr result
            (IsSortedFault U.into_iter_gives U.IntoIter.next_gives config pairs) }
        ensures full { IfErr result
            (IsFullOfRising U.into_iter_gives U.IntoIter.next_gives config pairs) }
    {
        let mut map = match Map::new(machine, alloc, config) {
            Ok(map) => map,
            Err(fault) => return Err(SortedFault::New(fault)),
        };
        match map.append_all(pairs) {
            Ok(()) => Ok(map),
            Err(fault) => {
                map.full_law();
                Err(fault)
            }
        }
    }

    /// Puts the pairs into an empty map.
    fn append_all<U: IntoIterator<Item = (Key, u64)>>(
        &mut self,
        pairs: U,
    ) -> Result<(), SortedFault>
        requires empty { self.old.pairs ≡ [] }
        requires finite { IsFiniteIterable U.into_iter_gives U.IntoIter.can_next
            U.IntoIter.remaining pairs }
        ensures appends { AppendsAll U.into_iter_gives U.IntoIter.next_gives pairs result
            self.new.pairs }
        ensures cut { IfErr result
            (CutsAll U.into_iter_gives U.IntoIter.next_gives pairs self.new) }
        ensures config { self.new.config ≡ self.old.config }
    {
        let mut edge = Edge::none();
        let mut last = None;
        let mut left = pairs.into_iter();
        let Ok(mut run) = Run::new(self.worker.machine) else {
            return Err(SortedFault::Put(Fault::NoMemory));
        };
        while let Some((key, value)) = left.next() {
            if !is_above(key, last) {
                return Err(self.unsorted(&mut edge, run.as_slice()));
            }
            if let Err(fault) = self.keep(&mut edge, &mut run, key, value) {
                return Err(SortedFault::Put(fault));
            }
            last = Some(key);
        }
        if let Err(fault) = self.append_each(&mut edge, run.as_slice()) {
            return Err(SortedFault::Put(fault));
        }
        self.tend_edge(edge);
        Ok(())
    }

    /// Puts the pairs that were kept back, and returns the fault of the pair after them.
    #[cold]
    fn unsorted(&mut self, edge: &mut Edge, run: EntrySlice<'_, u64>) -> SortedFault
        requires { IsAscending (self.old.pairs ++ list_of run) }
        ensures fault { IsUnsortedBehind (self.old.pairs ++ list_of run.entry) result }
        ensures cut { CutsBehind (self.old.pairs ++ list_of run.entry) self.new result }
        ensures config { self.new.config ≡ self.old.config }
    {
        match self.append_each(edge, run) {
            Ok(()) => SortedFault::Unsorted(self.len()),
            Err(fault) => SortedFault::Put(fault),
        }
    }

    /// Keeps the pair back. If many pairs were kept back before it, puts those first.
    #[inline(always)]
    fn keep(&mut self, edge: &mut Edge, run: &mut Run, key: Key, value: u64) -> Result<(), Fault>
        requires { IsAscending (self.old.pairs ++ run.old) }
        ensures kept { OnOk result
            (self.new.pairs ++ run.new ≡ self.old.pairs ++ (run.old ++ (key, value) ∷ [])) }
        ensures cut { IfErr result (IsCutShort (self.old.pairs ++ run.old) self.new) }
        ensures config { self.new.config ≡ self.old.config }
    {
        if run.is_full() {
            self.append_each(edge, run.as_slice())?;
            run.clear();
        }
        match run.push(key, value) {
            Ok(()) => Ok(()),
            Err(_) => Err(Fault::NoMemory),
        }
    }

    /// Puts the pairs after all others.
    #[inline(never)]
    fn append_each(&mut self, edge: &mut Edge, run: EntrySlice<'_, u64>) -> Result<(), Fault>
        requires { IsAscending (self.old.pairs ++ list_of run) }
        ensures puts { OnOk result (self.new.pairs ≡ self.old.pairs ++ list_of run.entry) }
        ensures cut { IfErr result
            (IsCutShort (self.old.pairs ++ list_of run.entry) self.new) }
        ensures config { self.new.config ≡ self.old.config }
    {
        let mut left = run;
        'pairs: while let Some((pair, rest)) = left.split_first() {
            match self.append_front(edge, left) {
                Some(back) => left = back,
                None => {
                    self.append_behind(edge, pair.0, pair.1)?;
                    left = rest;
                }
            }
        }
        Ok(())
    }

    /// Puts as many of the pairs as the edge's leaf has room for after all others, and returns the
    /// rest. Returns `None`, and changes nothing, if there are none.
    fn append_front<'r>(
        &mut self,
        edge: &mut Edge,
        run: EntrySlice<'r, u64>,
    ) -> Option<EntrySlice<'r, u64>>
        requires { IsAscending (self.old.pairs ++ list_of run) }
        ensures puts { IfSome result (λ back.
            self.new.pairs ++ list_of back ≡ self.old.pairs ++ list_of run.entry) }
        ensures some { IfSome result (λ back. length (list_of back) < length (list_of run.entry)) }
        ensures unchanged { IfNone result (self.new.pairs ≡ self.old.pairs) }
        ensures config { self.new.config ≡ self.old.config }
    {
        let (front, back) = run.split_at(edge.count_upto(run.len()));
        if front.is_empty() {
            return None;
        }
        if !self.append_at_edge(edge, front) {
            return None;
        }
        Some(back)
    }

    /// Sets the key to the value when the edge's leaf has no room or isn't known.
    #[inline(never)]
    fn append_behind(&mut self, edge: &mut Edge, key: Key, value: u64) -> Result<(), Fault>
        ensures sets { OnOk result (self.new.pairs ≡ put key value self.old.pairs) }
        ensures unchanged { OnErr result (self.new.pairs ≡ self.old.pairs) }
        ensures full { result ≡ Err faults.TableFull → self.new.free ≡ 0 }
        ensures config { self.new.config ≡ self.old.config }
    {
        self.make_room();
        self.move_edge(edge, key);
        if self.set_at_edge(edge, key, value) {
            return Ok(());
        }
        if let Err(fault) = self.set_in_room(key, value) {
            return Err(self.cause_in_place(fault));
        }
        *edge = self.worker.edge_at(key);
        Ok(())
    }

    /// Puts the pairs after all others, if they belong to the edge's leaf and there is room.
    fn append_at_edge(&mut self, edge: &mut Edge, run: EntrySlice<'_, u64>) -> bool
        requires { IsAscending (self.old.pairs ++ list_of run) }
        ensures puts { result ≡ true → self.new.pairs ≡ self.old.pairs ++ list_of run.entry }
        ensures unchanged { result ≡ false → self.new.pairs ≡ self.old.pairs }
        ensures config { self.new.config ≡ self.old.config }
    {
        self.worker.append_at_edge(edge, run)
    }

    /// Sets the key to the value, if it belongs to the edge's leaf and there is room.
    fn set_at_edge(&mut self, edge: &mut Edge, key: Key, value: u64) -> bool
        ensures sets { result ≡ true → self.new.pairs ≡ put key value self.old.pairs }
        ensures unchanged { result ≡ false → self.new.pairs ≡ self.old.pairs }
        ensures config { self.new.config ≡ self.old.config }
    {
        self.worker.set_at_edge(edge, key, value).is_some()
    }

    /// Goes on to a new leaf, if the edge's has no room.
    fn move_edge(&mut self, edge: &mut Edge, key: Key)
        ensures pairs { self.new.pairs ≡ self.old.pairs }
        ensures config { self.new.config ≡ self.old.config }
    {
        self.worker.move_edge(edge, key);
    }

    /// Splits the edge's leaf, if it has too many pairs.
    fn tend_edge(&mut self, edge: Edge)
        ensures pairs { self.new.pairs ≡ self.old.pairs }
        ensures config { self.new.config ≡ self.old.config }
    {
        self.worker.tend_edge(edge);
    }
}

/// Whether the key is above the last one, if there is a last one.
#[inline(always)]
fn is_above(key: Key, last: Option<Key>) -> bool
    ensures above { result ≡ is_above key last }
    ensures key { key < key_count }
{
    match last {
        Some(before) => before < key,
        None => true,
    }
}
