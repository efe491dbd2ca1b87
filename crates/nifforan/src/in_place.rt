//! A key that is looked up and then changed, in one search.

ghost use Rattle.std.specs.Prelude.{◌≡◌, [], Some, IfSome, IfNone};
ghost use Rattle.bw_step.specs.Tellings.{telling_of};
ghost use Rattle.bw_law.specs.Tables.{IsValueAt, TellsMap};
ghost use Rattle.bw_procedures.specs.Writing.{IsReceiptFor};
ghost use Rattle.nifforan.specs.Maps.{IsReady};

use crate::worker::Worker;
use bw_keys::{Key, Pid};
use bw_table::{Performed, Table, Wished};
use std::alloc::Allocator;

/// What a look for a key found.
#[derive(Clone, Copy)]
pub(crate) struct Found {
    /// The value that the key has.
    pub(crate) value: Option<u64>,
    /// The key's leaf, if no page on the way to it is in the middle of a split or a merge.
    leaf: Option<Pid>,
}

impl Found {
    /// The value of a key that was read in this leaf.
    #[inline(always)]
    pub(crate) fn in_leaf(leaf: Pid, value: u64) -> Found
        ensures { result.value ≡ Some value }
    {
        Found {
            value: Some(value),
            leaf: Some(leaf),
        }
    }
}

impl<A: Allocator + Copy> Worker<A> {
    /// Looks the key up.
    #[inline(always)]
    pub(crate) fn find(&self, key: Key) -> Found
        ensures { IsValueAt self.now.owner.table.value.slots key result.value }
    {
        let table = &self.owner.table.value;
        if let Some(leaf) = table.leaf_at_rest(key) {
            if let Some(look) = table.look(leaf.pid, key) {
                return Found {
                    value: look.found,
                    leaf: Some(leaf.pid),
                };
            }
        }
        Found {
            value: table.get(key),
            leaf: None,
        }
    }

    /// Carries out the wish on the leaf, if it was found and takes the change at once.
    #[inline(always)]
    pub(crate) fn change_found(
        &mut self,
        found: Found,
        key: Key,
        wished: Wished,
    ) -> Option<Performed>
        requires { self.old.owner.account.seen.trail ≡ [] }
        ensures reported { IfSome result (λ done. IsReceiptFor key wished done.receipt) }
        ensures map { IfSome result (λ done. TellsMap (telling_of done.receipt)
            self.old.owner.table.value.slots self.new.owner.table.value.slots) }
        ensures ready { IfSome result (λ done.
            IsReady self.new.owner.table.value self.new.owner.account.seen.trail) }
        ensures config { self.new.owner.table.value.config ≡ self.old.owner.table.value.config }
        ensures unchanged { IfNone result (self.new ≡ self.old) }
    {
        let page = found.leaf?;
        let table = &mut self.owner.table.value;
        let receipt = table.change_leaf(page, key, wished)?;
        table.law();
        let (count, depth) = size_of(table, page);
        Some(Performed {
            page,
            key,
            receipt,
            count,
            depth,
        })
    }
}

/// How many entries the page has, and how many records.
#[inline(always)]
fn size_of<A: Allocator + Copy>(table: &Table<A>, page: Pid) -> (u64, u8) {
    match table.peek(page) {
        Some(view) => (view.count, view.depth),
        None => (0, 0),
    }
}
