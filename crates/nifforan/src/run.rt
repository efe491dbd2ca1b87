//! Pairs that are kept back until several can be put at once.
#![tactic(auto, using(bw_delta::proofs::Zips::zips))]

ghost use Rattle.std.specs.Prelude.{◌≡◌, ◌++◌, ◌∷◌, [], IfOk, OnOk};
ghost use Rattle.bw_delta.specs.Slices.{list_of};

use bw_delta::{EntrySlice, NoMemory};
use bw_keys::Key;
use std::alloc::Global;
use std::marker::Model;

/// How many pairs are kept back at most.
const MOST: usize = 64;

/// A few pairs, in the order in which they came.
#[derive(Drop)]
pub(crate) struct Run {
    keys: Vec<Key>,
    values: Vec<u64>,
}

impl Model for Run {
    ghost use Rattle.std.specs.Prelude.{◌≡◌, length};
    ghost use Rattle.std.specs.Coded.{coded_list, coded×, coded_ℕ};
    ghost use Rattle.std.specs.List.{zip};
    ghost use Rattle.nifforan.specs.Maps.{PairList};

    ghost Value = { PairList };

    ghost coded = { coded_list (coded× coded_ℕ coded_ℕ) };

    ghost view = { λ run. zip run.keys.items run.values.items };

    ghost invariant = { λ run. length run.values.items ≡ length run.keys.items };
}

impl Run {
    /// No pairs, and memory for as many as are kept back.
    pub(crate) fn new(machine: Global) -> Result<Run, NoMemory>
        ensures { IfOk result (λ run. run ≡ []) }
    {
        Ok(Run {
            keys: Vec::with_capacity(machine, MOST)?,
            values: Vec::with_capacity(machine, MOST)?,
        })
    }

    /// Whether it keeps back as many pairs as it may.
    #[inline(always)]
    pub(crate) fn is_full(&self) -> bool {
        self.keys.len() >= MOST
    }

    /// Keeps the pair.
    #[inline(always)]
    pub(crate) fn push(&mut self, key: Key, value: u64) -> Result<(), NoMemory>
        ensures { OnOk result (self.new ≡ self.old ++ (key, value) ∷ []) }
    {
        self.values.push(value)?;
        if self.keys.push(key).is_err() {
            self.values.truncate(self.keys.len());
            return Err(NoMemory);
        }
        Ok(())
    }

    /// Lends the pairs.
    #[inline(always)]
    pub(crate) fn as_slice(&self) -> EntrySlice<'_, u64>
        ensures { list_of result ≡ self.now }
    {
        EntrySlice::of(self.keys.as_slice(), self.values.as_slice())
    }

    /// Forgets the pairs.
    pub(crate) fn clear(&mut self)
        ensures { self.new ≡ [] }
    {
        self.keys.clear();
        self.values.clear();
    }
}
