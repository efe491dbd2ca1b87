//! Pages for a map whose table has too few, and the changes that then use them.

ghost use Rattle.std.specs.Prelude.{◌≡◌, ◌↔◌, ◌≤◌, min, Some, None, IfOk, OnOk, OnErr};
ghost use Rattle.bw_keys.specs.Ranges.{end_of};
ghost use Rattle.bw_procedures.specs.declared.fault.Fault.TheVariants as faults;
ghost use Rattle.nifforan.specs.Calls.{Puts, Sets, Deletes, Clears};
ghost use Rattle.nifforan.specs.Growing.{HasGrown, HasAllPages, SameReply, fault_reported};
ghost use Rattle.nifforan.specs.Maps.{before_put, before_set, before_delete};

use crate::map::Map;
use bw_delta::NoMemory;
use bw_keys::{Fence, Key};
use bw_procedures::{Cleared, Del, Done, Fault, Put, Set};
use std::alloc::Allocator;

impl<A: Allocator + Copy> Map<A> {
    /// Ensures that a change finds pages for a split on each level and for a new root, if the map
    /// may have more and memory is available. Otherwise the map makes do with the pages it has.
    #[inline(always)]
    pub(crate) fn make_room(&mut self)
        ensures { HasGrown self.old self.new }
    {
        let table = &self.worker.owner.table.value;
        if table.free_pages() <= table.root().level as usize + 1 {
            self.add_pages();
        }
    }

    /// Doubles the table's pages, up to the most that the map may have.
    #[cold]
    #[inline(never)]
    fn add_pages(&mut self)
        ensures { HasGrown self.old self.new }
    {
        let pages = self.worker.owner.table.value.config().pages;
        let _grown = self.grow_to(pages.saturating_add(1));
    }

    /// Ensures that the table has that many pages, or the most that the map may have. If it adds
    /// pages, it at least doubles them, so that growth in small steps costs no more. If memory is
    /// refused, the map stays as it was.
    pub(crate) fn grow_to(&mut self, pages: u32) -> Result<(), NoMemory>
        ensures kept { HasGrown self.old self.new }
        ensures pages { OnOk result (min pages self.old.config.pages ≤ self.new.pages) }
        ensures unchanged { OnErr result (self.new ≡ self.old) }
    {
        let there = self.worker.owner.table.value.config().pages;
        let wanted = pages.min(self.most);
        if wanted <= there {
            return Ok(());
        }
        let more = wanted.max(there.saturating_mul(2)).min(self.most) - there;
        self.worker.owner.table.value.add_pages(more)
    }

    /// Returns the answer of a call that ended like this. A split that found no free page reports
    /// `TableFull` only if the map has all its pages; otherwise memory for more was refused.
    fn reported<T: Drop>(&self, answer: Result<Done<T>, Fault>) -> Result<Done<T>, Fault>
        ensures reply { SameReply answer result }
        ensures full { fault_reported result ≡ Some faults.TableFull → HasAllPages self.now }
    {
        match answer {
            Ok(Done { reply, fault }) => Ok(Done {
                reply,
                fault: self.cause(fault),
            }),
            Err(fault) => Err(self.cause_of(fault)),
        }
    }

    /// Returns the fault that is reported for this one, if there is one.
    pub(crate) fn cause(&self, fault: Option<Fault>) -> Option<Fault>
        ensures none { (fault ≡ None) ↔ (result ≡ None) }
        ensures full { result ≡ Some faults.TableFull → HasAllPages self.now }
    {
        match fault {
            Some(fault) => Some(self.cause_of(fault)),
            None => None,
        }
    }

    fn cause_of(&self, fault: Fault) -> Fault
        ensures { result ≡ faults.TableFull → HasAllPages self.now }
    {
        let pages = self.worker.owner.table.value.config().pages;
        if fault == Fault::TableFull && pages < self.most {
            return Fault::NoMemory;
        }
        fault
    }

    /// Inserts the pair, unless the key has a value, step by step.
    #[cold]
    #[inline(never)]
    pub(crate) fn put_by_steps(&mut self, key: Key, value: u64) -> Result<Done<Put>, Fault>
        ensures puts { IfOk result (λ done.
            Puts key value (before_put done.reply) self.old.pairs self.new.pairs) }
        ensures unchanged { OnErr result (self.new.pairs ≡ self.old.pairs) }
        ensures full { fault_reported result ≡ Some faults.TableFull → HasAllPages self.new }
        ensures pages { self.old.pages ≤ self.new.pages }
        ensures config { self.new.config ≡ self.old.config }
    {
        self.make_room();
        let answer = self.put_in_room(key, value);
        self.reported(answer)
    }

    /// Inserts the pair, unless the key has a value, with the pages that are there.
    fn put_in_room(&mut self, key: Key, value: u64) -> Result<Done<Put>, Fault>
        ensures puts { IfOk result (λ done.
            Puts key value (before_put done.reply) self.old.pairs self.new.pairs) }
        ensures unchanged { OnErr result (self.new.pairs ≡ self.old.pairs) }
        ensures pages { self.new.pages ≡ self.old.pages }
        ensures config { self.new.config ≡ self.old.config }
    {
        self.worker.put(key, value)
    }

    /// Sets the key to the value, step by step.
    #[cold]
    #[inline(never)]
    pub(crate) fn set_by_steps(&mut self, key: Key, value: u64) -> Result<Done<Set>, Fault>
        ensures sets { IfOk result (λ done.
            Sets key value (before_set done.reply) self.old.pairs self.new.pairs) }
        ensures unchanged { OnErr result (self.new.pairs ≡ self.old.pairs) }
        ensures full { fault_reported result ≡ Some faults.TableFull → HasAllPages self.new }
        ensures pages { self.old.pages ≤ self.new.pages }
        ensures config { self.new.config ≡ self.old.config }
    {
        self.make_room();
        let answer = self.set_in_room(key, value);
        self.reported(answer)
    }

    /// Sets the key to the value, with the pages that are there.
    pub(crate) fn set_in_room(&mut self, key: Key, value: u64) -> Result<Done<Set>, Fault>
        ensures sets { IfOk result (λ done.
            Sets key value (before_set done.reply) self.old.pairs self.new.pairs) }
        ensures unchanged { OnErr result (self.new.pairs ≡ self.old.pairs) }
        ensures pages { self.new.pages ≡ self.old.pages }
        ensures config { self.new.config ≡ self.old.config }
    {
        self.worker.set(key, value)
    }

    /// Deletes the key, step by step.
    #[cold]
    #[inline(never)]
    pub(crate) fn delete_by_steps(&mut self, key: Key) -> Result<Done<Del>, Fault>
        ensures deletes { IfOk result (λ done.
            Deletes key (before_delete done.reply) self.old.pairs self.new.pairs) }
        ensures unchanged { OnErr result (self.new.pairs ≡ self.old.pairs) }
        ensures full { fault_reported result ≡ Some faults.TableFull → HasAllPages self.new }
        ensures pages { self.old.pages ≤ self.new.pages }
        ensures config { self.new.config ≡ self.old.config }
    {
        self.make_room();
        let answer = self.delete_in_room(key);
        self.reported(answer)
    }

    /// Deletes the key, with the pages that are there: a leaf that grew long for want of them is
    /// split then.
    fn delete_in_room(&mut self, key: Key) -> Result<Done<Del>, Fault>
        ensures deletes { IfOk result (λ done.
            Deletes key (before_delete done.reply) self.old.pairs self.new.pairs) }
        ensures unchanged { OnErr result (self.new.pairs ≡ self.old.pairs) }
        ensures pages { self.new.pages ≡ self.old.pages }
        ensures config { self.new.config ≡ self.old.config }
    {
        self.worker.delete(key)
    }

    /// Deletes the keys from the low on and below the high, with the pages that are there.
    pub(crate) fn clear_in_room(&mut self, low: Key, high: Fence) -> Cleared
        ensures clears { Clears low (end_of high) result.removed (result.fault ≡ None)
            self.old.pairs self.new.pairs }
        ensures pages { self.new.pages ≡ self.old.pages }
        ensures config { self.new.config ≡ self.old.config }
    {
        self.worker.clear(low, high)
    }
}
