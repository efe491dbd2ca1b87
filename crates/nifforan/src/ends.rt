//! Removal of the first pair and of the last one.

ghost use Rattle.std.specs.Prelude.{◌≡◌, ◌≤◌, Some, IfOk, OnErr};
ghost use Rattle.bw_procedures.specs.declared.fault.Fault.TheVariants as faults;
ghost use Rattle.nifforan.specs.Calls.{PopsFirst, PopsLast, TakesOut};
ghost use Rattle.nifforan.specs.Growing.{HasAllPages, fault_reported};

use crate::map::Map;
use bw_keys::Key;
use bw_procedures::{Done, Fault};
use std::alloc::Allocator;

impl<A: Allocator + Copy> Map<A> {
    /// Removes the pair with the least key. The reply has it, or none if the map is empty.
    pub fn pop_first(&mut self) -> Result<Done<Option<(Key, u64)>>, Fault>
        ensures pops { IfOk result (λ done. PopsFirst done.reply self.old.pairs self.new.pairs) }
        ensures unchanged { OnErr result (self.new.pairs ≡ self.old.pairs) }
        ensures full { fault_reported result ≡ Some faults.TableFull → HasAllPages self.new }
        ensures pages { self.old.pages ≤ self.new.pages }
        ensures config { self.new.config ≡ self.old.config }
    {
        self.law();
        let first = self.first();
        self.take_out(first)
    }

    /// Removes the pair with the greatest key. The reply has it, or none if the map is empty.
    pub fn pop_last(&mut self) -> Result<Done<Option<(Key, u64)>>, Fault>
        ensures pops { IfOk result (λ done. PopsLast done.reply self.old.pairs self.new.pairs) }
        ensures unchanged { OnErr result (self.new.pairs ≡ self.old.pairs) }
        ensures full { fault_reported result ≡ Some faults.TableFull → HasAllPages self.new }
        ensures pages { self.old.pages ≤ self.new.pages }
        ensures config { self.new.config ≡ self.old.config }
    {
        self.law();
        let last = self.last();
        self.take_out(last)
    }

    /// Deletes the key of the pair, if there is one.
    fn take_out(&mut self, pair: Option<(Key, u64)>) -> Result<Done<Option<(Key, u64)>>, Fault>
        ensures takes { IfOk result (λ done.
            TakesOut pair done.reply self.old.pairs self.new.pairs) }
        ensures unchanged { OnErr result (self.new.pairs ≡ self.old.pairs) }
        ensures full { fault_reported result ≡ Some faults.TableFull → HasAllPages self.new }
        ensures pages { self.old.pages ≤ self.new.pages }
        ensures config { self.new.config ≡ self.old.config }
    {
        let Some((key, _)) = pair else {
            return Ok(Done {
                reply: None,
                fault: None,
            });
        };
        let done = self.delete(key)?;
        Ok(Done {
            reply: pair,
            fault: done.fault,
        })
    }
}
