//! The worker of a map: it owns the map's table, and forgets the receipts of each call.

ghost use Rattle.std.specs.Prelude.{◌≡◌, [], Some, None, OnErr};
ghost use Rattle.bw_keys.specs.Ranges.{end_of};
ghost use Rattle.bw_law.specs.Tables.{SameMap};
ghost use Rattle.bw_alone.specs.Clearing.{IsMapWithout};
ghost use Rattle.nifforan.specs.Clearing.{Loses};
ghost use Rattle.nifforan.specs.Maps.{IsReady, Changes, before_put, value_after_put};
ghost use Rattle.nifforan.specs.Maps.{before_set, before_delete};

use bw_alone::{Own, Owner};
use bw_keys::{Fence, Key};
use bw_procedures::{Calls, Cleared, Del, Done, Fault, GivenUp, Put, Set};
use bw_table::Table;
use std::alloc::{Allocator, Global};

/// A worker that owns its table. Between two calls its trail is empty.
#[derive(Drop)]
pub(crate) struct Worker<A: Allocator + Copy> {
    pub(crate) owner: Owner<A>,
    pub(crate) machine: Global,
}

impl<A: Allocator + Copy> Worker<A> {
    /// Creates a worker that keeps no receipts of its steps. What it makes will lie in `alloc`.
    pub(crate) fn new(machine: Global, alloc: A, table: Table<A>) -> Worker<A>
        ensures table { result.owner.table.value ≡ table }
        ensures ready { IsReady result.owner.table.value result.owner.account.seen.trail }
    {
        let mut owner = Owner::with_trail(GivenUp::new(), alloc, Own { value: table });
        owner.forget();
        Worker { owner, machine }
    }

    /// Returns the table.
    pub(crate) fn into_table(self) -> Table<A>
        ensures { result ≡ self.owner.table.value }
    {
        let Worker { owner, .. } = self;
        let Own { value } = owner.into_holder();
        value
    }

    /// Inserts the pair, unless the key has a value.
    pub(crate) fn put(&mut self, key: Key, value: u64) -> Result<Done<Put>, Fault>
        requires { self.old.owner.account.seen.trail ≡ [] }
        ensures change { Changes key before_put (λ reply. Some (value_after_put value reply)) result
            self.old.owner.table.value self.new.owner.table.value }
        ensures unchanged { OnErr result
            (SameMap self.old.owner.table.value.slots self.new.owner.table.value.slots) }
        ensures ready { IsReady self.new.owner.table.value self.new.owner.account.seen.trail }
        ensures config { self.new.owner.table.value.config ≡ self.old.owner.table.value.config }
    {
        let result = self.owner.put(key, value);
        self.owner.forget();
        result
    }

    /// Sets the key to the value.
    pub(crate) fn set(&mut self, key: Key, value: u64) -> Result<Done<Set>, Fault>
        requires { self.old.owner.account.seen.trail ≡ [] }
        ensures change { Changes key before_set (λ reply. Some value) result
            self.old.owner.table.value self.new.owner.table.value }
        ensures unchanged { OnErr result
            (SameMap self.old.owner.table.value.slots self.new.owner.table.value.slots) }
        ensures ready { IsReady self.new.owner.table.value self.new.owner.account.seen.trail }
        ensures config { self.new.owner.table.value.config ≡ self.old.owner.table.value.config }
    {
        let result = self.owner.set(key, value);
        self.owner.forget();
        result
    }

    /// Deletes the key.
    pub(crate) fn delete(&mut self, key: Key) -> Result<Done<Del>, Fault>
        requires { self.old.owner.account.seen.trail ≡ [] }
        ensures change { Changes key before_delete (λ reply. None) result
            self.old.owner.table.value self.new.owner.table.value }
        ensures unchanged { OnErr result
            (SameMap self.old.owner.table.value.slots self.new.owner.table.value.slots) }
        ensures ready { IsReady self.new.owner.table.value self.new.owner.account.seen.trail }
        ensures config { self.new.owner.table.value.config ≡ self.old.owner.table.value.config }
    {
        let result = self.owner.delete(key);
        self.owner.forget();
        result
    }

    /// Deletes the keys from the low on and below the high, and frees the trail's memory, which had
    /// a receipt for each of them.
    pub(crate) fn clear(&mut self, low: Key, high: Fence) -> Cleared
        requires { self.old.owner.account.seen.trail ≡ [] }
        ensures cleared { result.fault ≡ None → IsMapWithout low (end_of high)
            self.old.owner.table.value.slots self.new.owner.table.value.slots }
        ensures loses { Loses low (end_of high) result.removed
            self.old.owner.table.value self.new.owner.table.value }
        ensures ready { IsReady self.new.owner.table.value self.new.owner.account.seen.trail }
        ensures config { self.new.owner.table.value.config ≡ self.old.owner.table.value.config }
    {
        let result = self.owner.clear(self.machine, low, high);
        self.owner.begin_anew(self.machine);
        result
    }
}
