//! Pages taken ahead, for pairs to come, and given back.

ghost use Rattle.std.specs.Prelude.{◌≡◌, ◌≢◌, ◌⊎◌, ◌+◌, ◌-◌, ◌*◌, ◌^◌, ◌<◌, ◌≤◌, ℕ, List, [], None, Err, length, sum};
ghost use Rattle.std.specs.Prelude.{IsOk, IfOk, IfErr, OnOk, OnErr};
ghost use Rattle.bw_keys.specs.Rooms.{half, AreLevels};
ghost use Rattle.bw_procedures.specs.declared.fault.Fault.TheVariants as faults;
ghost use Rattle.nifforan.specs.Filling.{IsFillFault};
ghost use Rattle.nifforan.specs.Growing.{AreWantedAbove, AreWantedFor, HasGrown, HasPagesFor};
ghost use Rattle.nifforan.specs.Growing.{MayBeTooMany};
ghost use Rattle.nifforan.specs.Settings.{first_bad_setting};

use crate::fill::FillFault;
use crate::map::Map;
use bw_delta::NoMemory;
use bw_keys::Config;
use bw_procedures::{Fault, Steps};
use std::alloc::{Allocator, Global};

impl<A: Allocator + Copy> Map<A> {
    /// Creates an empty map with enough pages for that many pairs: see `new` and `reserve`.
    pub fn with_capacity(
        machine: Global,
        alloc: A,
        config: Config,
        pairs: u64,
    ) -> Result<Map<A>, FillFault>
        ensures config { IfOk result (λ map. map.config ≡ config) }
        ensures empty { IfOk result (λ map. map.pairs ≡ []) }
        ensures room { IfOk result (HasPagesFor pairs) }
        ensures free { IfOk result (λ map. map.free ≡ config.pages - 1) }
        ensures fine { IsOk result → first_bad_setting config ≡ None }
        ensures fault { IfErr result (IsFillFault config) }
    {
        let mut map = match Map::new(machine, alloc, config) {
            Ok(map) => map,
            Err(fault) => return Err(FillFault::New(fault)),
        };
        match map.reserve(pairs) {
            Ok(()) => Ok(map),
            Err(fault) => Err(FillFault::Set(fault)),
        }
    }

    /// Takes memory ahead for the pages that so many more pairs may need, in any order and at the
    /// usual fanout. That is about six bytes a pair, or at least as much again as there was.
    ///
    /// # Errors
    ///
    /// Fails with [`Fault::TableFull`] if the pages that the map may have can be too few for so many
    /// pairs, or with [`Fault::NoMemory`]. The map then stays as it was.
    pub fn reserve(&mut self, additional: u64) -> Result<(), Fault>
        ensures kept { HasGrown self.old self.new }
        ensures room { OnOk result (HasPagesFor (length self.old.pairs + additional) self.new) }
        ensures unchanged { OnErr result (self.new ≡ self.old) }
        ensures full { result ≡ Err faults.TableFull
            → MayBeTooMany (length self.old.pairs + additional) self.old }
        ensures many { half * self.old.config.pages ≤ length self.old.pairs + additional
            → result ≡ Err faults.TableFull }
        ensures fault { IfErr result (λ fault.
            (fault ≡ faults.TableFull) ⊎ (fault ≡ faults.NoMemory)) }
    {
        let pages = pages_for(self.len().saturating_add(additional));
        if pages > u64::from(self.most) {
            return Err(Fault::TableFull);
        }
        match self.grow_to(pages as u32) {
            Ok(()) => Ok(()),
            Err(NoMemory) => Err(Fault::NoMemory),
        }
    }

    /// Rebuilds the map by puts of rising keys, so that it has no more pages than its pairs need,
    /// and none taken ahead. That takes about 0.3 µs a pair, and memory for both maps meanwhile. If
    /// a fault ends it, or the new map would take all pages it may have, the map stays as it was.
    pub fn shrink_to_fit(&mut self) -> Result<(), Fault>
        ensures pairs { self.new.pairs ≡ self.old.pairs }
        ensures config { self.new.config ≡ self.old.config }
        ensures pages { self.new.pages ≤ self.old.pages }
        ensures unchanged { OnErr result (self.new ≡ self.old) }
        ensures full { result ≢ Err faults.TableFull }
    {
        let fitted = match self.anew() {
            Ok(fitted) => fitted,
            Err(Fault::TableFull) => return Ok(()),
            Err(fault) => return Err(fault),
        };
        if fitted.pages() <= self.pages() {
            *self = fitted;
        }
        Ok(())
    }

    /// Creates a map of the same configuration with the same pairs, which are set one after the
    /// other.
    fn anew(&self) -> Result<Map<A>, Fault>
        ensures pairs { IfOk result (λ map. map.pairs ≡ self.now.pairs) }
        ensures config { IfOk result (λ map. map.config ≡ self.now.config) }
    {
        self.law();
        let mut map = self.emptied()?;
        let _done = map.set_each(self.iter())?;
        Ok(map)
    }

    /// Creates a map of the same configuration without pairs, in the same memory.
    fn emptied(&self) -> Result<Map<A>, NoMemory>
        ensures config { IfOk result (λ map. map.config ≡ self.now.config) }
        ensures empty { IfOk result (λ map. map.pairs ≡ []) }
    {
        let alloc = self.worker.owner.alloc();
        match Map::new(self.worker.machine, alloc, self.config()) {
            Ok(map) => Ok(map),
            // The configuration made this map.
            Err(_) => Err(NoMemory),
        }
    }
}

/// The fewest entries that a split leaves in either page, if pages may have 64.
const HALF: u64 = 32;

/// Returns how many pages a map needs for that many pairs: as many as insertions alone may fill in
/// any order, and those that each put must find free.
fn pages_for(pairs: u64) -> u64
    ensures room { (leaves : ℕ) (above : List ℕ) → half * (leaves - 1) ≤ pairs
        → AreLevels leaves above → leaves + sum above ≤ result }
    ensures wanted { AreWantedFor pairs result }
    ensures many { pairs < half * result }
{
    let leaves = pairs / HALF + 1;
    leaves + pages_above(leaves)
}

/// Returns how many pages there may be on all levels above one with so many pages, plus one free
/// page for each level and one for a new root.
fn pages_above(pages: u64) -> u64
    requires { pages < 2 ^ 60 }
    ensures all { (below : ℕ) (above : List ℕ) → below ≤ pages → AreLevels below above
        → sum above ≤ result }
    ensures wanted { 1 ≤ pages → AreWantedAbove pages result }
    ensures few { result ≤ 2 * pages + 2 }
{
    if pages <= 1 {
        return 2;
    }
    let next = (pages - 1) / HALF + 1;
    next + 1 + pages_above(next)
}
