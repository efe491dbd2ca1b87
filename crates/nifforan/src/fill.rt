//! Many pairs, set one after the other.

ghost use Rattle.std.specs.Prelude.{◌≡◌, ◌≤◌, None, Some, IfOk, IfErr, OnOk};
ghost use Rattle.std.specs.Iterator.{IsFinite, IsFiniteIterable};
ghost use Rattle.bw_procedures.specs.declared.fault.Fault.TheVariants as faults;
ghost use Rattle.nifforan.specs.Calls.{SetsAll, SetsEach};
ghost use Rattle.nifforan.specs.Filling.{AreAllTaken, IsFillFault, IsFullCopy, IsFullOf, IsMadeOf};
ghost use Rattle.nifforan.specs.Growing.{HasAllPages, fault_reported};
ghost use Rattle.nifforan.specs.Settings.{first_bad_setting};

use crate::map::Map;
use bw_keys::{Config, Key};
use bw_procedures::{Done, Fault, Steps};
use bw_table::NewFault;
use std::alloc::{Allocator, Global};
use thiserror::Error;

/// Why no map was made of the pairs.
#[derive(Clone, Copy, Debug, PartialEq, Eq, Error)]
pub enum FillFault {
    /// The empty map couldn't be made.
    #[error("{0}")]
    New(NewFault),
    /// A pair couldn't be set, or pages for it couldn't be taken ahead.
    #[error("{0}")]
    Set(Fault),
}

impl<A: Allocator + Copy> Map<A> {
    /// Sets the key of each pair to its value, one after the other, so of pairs with the same key
    /// the last one stays. If the call fails, the pairs before the fault are set. A fault beside
    /// the reply is the first that cut page maintenance short.
    pub fn extend<U: IntoIterator<Item = (Key, u64)>>(
        &mut self,
        pairs: U,
    ) -> Result<Done<()>, Fault>
        requires { IsFiniteIterable U.into_iter_gives U.IntoIter.can_next U.IntoIter.remaining
            pairs }
        ensures sets { SetsAll U.into_iter_gives U.IntoIter.next_gives pairs result
            self.old.pairs self.new.pairs }
        ensures full { fault_reported result ≡ Some faults.TableFull → HasAllPages self.new }
        ensures pages { self.old.pages ≤ self.new.pages }
        ensures config { self.new.config ≡ self.old.config }
    {
        let left = pairs.into_iter();
        let hint = left.size_hint().0 as u64;
        // Some of the keys may be in the map already. Without this memory, pages are added as they
        // are needed.
        let new = if self.is_empty() { hint } else { hint / 2 };
        let _ahead = self.reserve(new);
        self.set_each(left)
    }

    /// Sets the key of each pair that the iterator yields to its value.
    pub(crate) fn set_each<I: Iterator<Item = (Key, u64)>>(
        &mut self,
        mut left: I,
    ) -> Result<Done<()>, Fault>
        requires next { I.can_next left }
        requires finite { IsFinite (I.remaining left) }
        ensures sets { SetsEach I.next_gives left result self.old.pairs self.new.pairs }
        ensures full { fault_reported result ≡ Some faults.TableFull → HasAllPages self.new }
        ensures pages { self.old.pages ≤ self.new.pages }
        ensures config { self.new.config ≡ self.old.config }
    {
        let mut fault = None;
        while let Some((key, value)) = left.next() {
            let done = self.set(key, value)?;
            fault = fault.or(done.fault);
        }
        Ok(Done { reply: (), fault })
    }

    /// Creates a map with the pairs; of pairs with the same key the last one stays. See `new` and
    /// `extend`.
    pub fn from_pairs<U: IntoIterator<Item = (Key, u64)> + Drop>(
        machine: Global,
        alloc: A,
        config: Config,
        pairs: U,
    ) -> Result<Map<A>, FillFault>
        requires { IsFiniteIterable U.into_iter_gives U.IntoIter.can_next U.IntoIter.remaining
            pairs }
        ensures pairs { IfOk result (λ map.
            IsMadeOf U.into_iter_gives U.IntoIter.next_gives pairs map.pairs) }
        ensures config { IfOk result (λ map. map.config ≡ config) }
        ensures fine { OnOk result (first_bad_setting config ≡ None) }
        ensures fault { IfErr result (IsFillFault config) }
        ensures full { IfErr result
            (IsFullOf U.into_iter_gives U.IntoIter.next_gives config pairs) }
    {
        let mut map = match Map::new(machine, alloc, config) {
            Ok(map) => map,
            Err(fault) => return Err(FillFault::New(fault)),
        };
        match map.extend(pairs) {
            Ok(_) => Ok(map),
            Err(fault) => {
                let fault = map.cause_in_place(fault);
                map.full_law();
                Err(FillFault::Set(fault))
            }
        }
    }

    /// Creates a map of the same configuration with the same pairs, in the same memory: see
    /// `from_pairs`.
    pub fn try_clone(&self) -> Result<Map<A>, FillFault>
        ensures pairs { IfOk result (λ map. map.pairs ≡ self.now.pairs) }
        ensures config { IfOk result (λ map. map.config ≡ self.now.config) }
        ensures fault { IfErr result (IsFillFault self.now.config) }
        ensures full { IfErr result (IsFullCopy self.now) }
    {
        self.law();
        let alloc = self.worker.owner.alloc();
        Map::from_pairs(self.worker.machine, alloc, self.config(), self)
    }

    /// Returns the fault that is reported in a reply's place where this one was met there: `TableFull`
    /// only if the map has room for no further page. Otherwise memory was refused for more.
    #[cold]
    pub(crate) fn cause_in_place(&self, fault: Fault) -> Fault
        ensures { result ≡ faults.TableFull → self.now.free ≡ 0 }
    {
        if fault == Fault::TableFull && !self.is_full() {
            return Fault::NoMemory;
        }
        fault
    }

    /// Does nothing. The contract states that each page of a full map is taken.
    pub(crate) fn full_law(&self)
        ensures { self.now.free ≡ 0 → AreAllTaken self.now.config self.now.pairs }
    {
        // Reading the worker yields the law of its table.
        let _worker = &self.worker;
    }
}
