//! Changes of a key that depend on its value.

ghost use Rattle.std.specs.Prelude.{◌≡◌, ◌≤◌, Some, IfOk, OnErr};
ghost use Rattle.bw_delta.specs.Entries.{at};
ghost use Rattle.bw_procedures.specs.declared.fault.Fault.TheVariants as faults;
ghost use Rattle.nifforan.specs.Calls.{ComparesAndSets, Upserts, Sets, Deletes};
ghost use Rattle.nifforan.specs.Growing.{HasAllPages, fault_reported};
ghost use Rattle.nifforan.specs.Maps.{before_set, before_delete};

use crate::in_place::Found;
use crate::map::Map;
use bw_keys::Key;
use bw_procedures::{Del, Done, Fault, Set};
use bw_table::Wished;
use std::alloc::Allocator;

/// What a compare-and-set replies.
#[derive(Clone, Copy, Debug, PartialEq, Eq, Hash)]
pub enum CompareAndSet {
    /// The key had the expected value, and now has the new one. Either may be none.
    Set,
    /// The key had this value instead, or none, and keeps it.
    Differs(Option<u64>),
}

/// What an upsert replies.
#[derive(Clone, Copy, Debug, PartialEq, Eq, Hash)]
pub struct Upsert {
    /// The value that the key had.
    pub old: Option<u64>,
    /// The value that it has now.
    pub new: u64,
}

impl<A: Allocator + Copy> Map<A> {
    /// Sets the key to the new value if it has the expected one; `None` stands for no value.
    /// Otherwise the reply has what was found.
    pub fn compare_and_set(
        &mut self,
        key: Key,
        expected: Option<u64>,
        new: Option<u64>,
    ) -> Result<Done<CompareAndSet>, Fault>
        ensures sets { IfOk result (λ done.
            ComparesAndSets key expected new done.reply self.old.pairs self.new.pairs) }
        ensures unchanged { OnErr result (self.new.pairs ≡ self.old.pairs) }
        ensures full { fault_reported result ≡ Some faults.TableFull → HasAllPages self.new }
        ensures pages { self.old.pages ≤ self.new.pages }
        ensures config { self.new.config ≡ self.old.config }
    {
        let found = self.find(key);
        if found.value != expected {
            return Ok(Done {
                reply: CompareAndSet::Differs(found.value),
                fault: None,
            });
        }
        let fault = match new {
            Some(value) => self.set_found(found, key, value)?.fault,
            None => self.delete_found(found, key)?.fault,
        };
        Ok(Done {
            reply: CompareAndSet::Set,
            fault,
        })
    }

    /// Sets the key to the value that the function makes of its value, or of none. The reply has
    /// the old value and the new one.
    pub fn upsert<F: FnOnce(Option<u64>) -> u64>(
        &mut self,
        key: Key,
        new: F,
    ) -> Result<Done<Upsert>, Fault>
        requires { F.pre new (at key self.old.pairs) }
        ensures upserts { IfOk result (λ done.
            Upserts (F.post new) key done.reply self.old.pairs self.new.pairs) }
        ensures unchanged { OnErr result (self.new.pairs ≡ self.old.pairs) }
        ensures full { fault_reported result ≡ Some faults.TableFull → HasAllPages self.new }
        ensures pages { self.old.pages ≤ self.new.pages }
        ensures config { self.new.config ≡ self.old.config }
    {
        let found = self.find(key);
        let old = found.value;
        let new = new(old);
        let done = self.set_found(found, key, new)?;
        Ok(Done {
            reply: Upsert { old, new },
            fault: done.fault,
        })
    }

    /// Looks the key up, for a change of it.
    #[inline(always)]
    fn find(&self, key: Key) -> Found
        ensures { result.value ≡ at key self.now.pairs }
    {
        self.worker.find(key)
    }

    /// Sets the key, which was looked up, to the value.
    #[inline(always)]
    pub(crate) fn set_found(
        &mut self,
        found: Found,
        key: Key,
        value: u64,
    ) -> Result<Done<Set>, Fault>
        ensures sets { IfOk result (λ done.
            Sets key value (before_set done.reply) self.old.pairs self.new.pairs) }
        ensures unchanged { OnErr result (self.new.pairs ≡ self.old.pairs) }
        ensures full { fault_reported result ≡ Some faults.TableFull → HasAllPages self.new }
        ensures pages { self.old.pages ≤ self.new.pages }
        ensures config { self.new.config ≡ self.old.config }
    {
        match self.change_found(found, key, Wished::Set(value)) {
            Some(done) => Ok(Done {
                reply: Set::of(done.receipt),
                fault: self.tend_changed(done),
            }),
            None => self.set(key, value),
        }
    }

    /// Deletes the key, which was looked up.
    #[inline(always)]
    fn delete_found(&mut self, found: Found, key: Key) -> Result<Done<Del>, Fault>
        ensures deletes { IfOk result (λ done.
            Deletes key (before_delete done.reply) self.old.pairs self.new.pairs) }
        ensures unchanged { OnErr result (self.new.pairs ≡ self.old.pairs) }
        ensures full { fault_reported result ≡ Some faults.TableFull → HasAllPages self.new }
        ensures pages { self.old.pages ≤ self.new.pages }
        ensures config { self.new.config ≡ self.old.config }
    {
        match self.change_found(found, key, Wished::Delete) {
            Some(done) => Ok(Done {
                reply: Del::of(done.receipt),
                fault: self.tend_changed(done),
            }),
            None => self.delete(key),
        }
    }
}
