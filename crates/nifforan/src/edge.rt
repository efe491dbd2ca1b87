//! The last leaf of a map, where pairs with ever greater keys go.

ghost use Rattle.std.specs.Prelude.{◌≡◌, ◌≤◌, ◌++◌, [], Some, IfSome, IfNone, true, false};
ghost use Rattle.bw_keys.specs.declared.wished.Wished.TheVariants as wishes;
ghost use Rattle.bw_delta.specs.Slices.{list_of};
ghost use Rattle.bw_chain.specs.Ascends.{IsAscending};
ghost use Rattle.bw_step.specs.Tellings.{telling_of};
ghost use Rattle.bw_law.specs.Tables.{ChangesKey, SameMap, TellsMap};
ghost use Rattle.bw_procedures.specs.Writing.{IsReceiptFor};
ghost use Rattle.nifforan.specs.Maps.{IsReady, before_set, pairs_of};
ghost use Rattle.nifforan.specs.Rising.{IsAppended};

use crate::worker::Worker;
use bw_delta::EntrySlice;
use bw_keys::{Key, Pid};
use bw_procedures::{Calls, Set};
use bw_step::{Go, Todo};
use bw_table::{Receipt, Table, Wished};
use std::alloc::Allocator;

/// A leaf that pairs are put into without a search, until it has one more than a page may have.
#[derive(Clone, Copy)]
pub(crate) struct Edge {
    leaf: Option<Pid>,
    /// How many pairs it still takes.
    room: u64,
}

impl Edge {
    /// No leaf.
    pub(crate) fn none() -> Edge {
        Edge {
            leaf: None,
            room: 0,
        }
    }

    /// Sets the key to the value, if it belongs to the leaf and there is room.
    #[inline(always)]
    fn set<A: Allocator + Copy>(
        &mut self,
        table: &mut Table<A>,
        key: Key,
        value: u64,
    ) -> Option<Receipt>
        ensures reported { IfSome result (IsReceiptFor key (wishes.Set value)) }
        ensures map { IfSome result (λ receipt.
            TellsMap (telling_of receipt) table.old.slots table.new.slots) }
        ensures config { table.new.config ≡ table.old.config }
        ensures unchanged { IfNone result (table.new ≡ table.old) }
    {
        let leaf = self.leaf?;
        if self.room == 0 {
            return None;
        }
        let receipt = table.change_leaf(leaf, key, Wished::Set(value))?;
        self.room -= 1;
        Some(receipt)
    }

    /// How many of this many pairs there is room for.
    pub(crate) fn count_upto(&self, many: usize) -> usize
        ensures { result ≤ many }
    {
        match usize::try_from(self.room) {
            Ok(room) => room.min(many),
            Err(_) => many,
        }
    }

    /// Puts the pairs after all others of the leaf, if they belong to it and there is room.
    fn append<A: Allocator + Copy>(
        &mut self,
        table: &mut Table<A>,
        run: EntrySlice<'_, u64>,
    ) -> bool
        requires { IsAscending (list_of run) }
        ensures done { result ≡ true → IsAppended table.old (list_of run.entry) table.new }
        ensures unchanged { result ≡ false → table.new ≡ table.old }
    {
        let Some(leaf) = self.leaf else {
            return false;
        };
        let count = run.len() as u64;
        if self.room < count {
            return false;
        }
        if table.append_to_leaf(leaf, run).is_err() {
            return false;
        }
        self.room -= count;
        true
    }

    /// The leaf, if it has no room.
    fn full_leaf(self) -> Option<Pid> {
        if self.room > 0 {
            return None;
        }
        self.leaf
    }
}

impl<A: Allocator + Copy> Worker<A> {
    /// The leaf whose range holds the key.
    pub(crate) fn edge_at(&self, key: Key) -> Edge {
        let table = &self.owner.table.value;
        match table.leaf_at_rest(key) {
            Some(view) => Edge {
                leaf: Some(view.pid),
                room: (u64::from(table.config().fanout) + 1).saturating_sub(view.count),
            },
            None => Edge::none(),
        }
    }

    /// Sets the key to the value in the edge's leaf, if it belongs there and there is room.
    #[inline(always)]
    pub(crate) fn set_at_edge(&mut self, edge: &mut Edge, key: Key, value: u64) -> Option<Set>
        requires { self.old.owner.account.seen.trail ≡ [] }
        ensures change { IfSome result (λ reply. ChangesKey
            self.old.owner.table.value.slots self.new.owner.table.value.slots
            key (before_set reply) (Some value)) }
        ensures ready { IsReady self.new.owner.table.value self.new.owner.account.seen.trail }
        ensures config { self.new.owner.table.value.config ≡ self.old.owner.table.value.config }
        ensures unchanged { IfNone result (self.new ≡ self.old) }
    {
        let receipt = edge.set(&mut self.owner.table.value, key, value);
        self.owner.table.value.law();
        Some(Set::of(receipt?))
    }

    /// Puts the pairs after all others, if they belong to the edge's leaf and there is room.
    pub(crate) fn append_at_edge(&mut self, edge: &mut Edge, run: EntrySlice<'_, u64>) -> bool
        requires empty { self.old.owner.account.seen.trail ≡ [] }
        requires behind { IsAscending
            (pairs_of self.old.owner.table.value.slots ++ list_of run) }
        ensures puts { result ≡ true → pairs_of self.new.owner.table.value.slots
            ≡ pairs_of self.old.owner.table.value.slots ++ list_of run.entry }
        ensures ready { IsReady self.new.owner.table.value self.new.owner.account.seen.trail }
        ensures config { self.new.owner.table.value.config ≡ self.old.owner.table.value.config }
        ensures unchanged { result ≡ false → self.new ≡ self.old }
    {
        self.owner.table.value.law();
        let done = edge.append(&mut self.owner.table.value, run);
        self.owner.table.value.law();
        done
    }

    /// If the edge's leaf has no room, splits it before its last pair, and goes on to the key's
    /// leaf.
    pub(crate) fn move_edge(&mut self, edge: &mut Edge, key: Key)
        requires { self.old.owner.account.seen.trail ≡ [] }
        ensures same { SameMap self.old.owner.table.value.slots self.new.owner.table.value.slots }
        ensures ready { IsReady self.new.owner.table.value self.new.owner.account.seen.trail }
        ensures config { self.new.owner.table.value.config ≡ self.old.owner.table.value.config }
    {
        self.owner.table.value.law();
        if let Some(leaf) = edge.full_leaf() {
            self.split_edge(leaf, key);
            *edge = self.edge_at(key);
        }
    }

    /// Splits a leaf that has one pair too many before its last pair, which then stands alone in a
    /// new leaf.
    fn split_edge(&mut self, leaf: Pid, key: Key)
        requires { self.old.owner.account.seen.trail ≡ [] }
        ensures same { SameMap self.old.owner.table.value.slots self.new.owner.table.value.slots }
        ensures ready { IsReady self.new.owner.table.value self.new.owner.account.seen.trail }
        ensures config { self.new.owner.table.value.config ≡ self.old.owner.table.value.config }
    {
        let table = &self.owner.table.value;
        // The root has no parent that could name the new page: `post` sees to that.
        let parent = page_above_leaf(table, key).unwrap_or(leaf);
        let full = table.config().fanout as usize;
        match self.split_under(parent, leaf, full) {
            Some(new) => {
                self.post(new);
                let _fault = self.tend(parent);
            }
            None => {
                let _fault = self.tend(leaf);
            }
        }
    }

    /// Splits the page before the entry with this number, and names the new page in the parent, if
    /// that takes it.
    fn split_under(&mut self, parent: Pid, page: Pid, number: usize) -> Option<Pid>
        requires { self.old.owner.account.seen.trail ≡ [] }
        ensures same { SameMap self.old.owner.table.value.slots self.new.owner.table.value.slots }
        ensures ready { IsReady self.new.owner.table.value self.new.owner.account.seen.trail }
        ensures config { self.new.owner.table.value.config ≡ self.old.owner.table.value.config }
    {
        self.owner.table.value.law();
        let split = self.owner.table.value.split_under(parent, page, number);
        self.owner.table.value.law();
        let (new, _posted) = split.ok()?;
        Some(new)
    }

    /// Ensures that a parent names the page. A fault leaves that to a later call.
    fn post(&mut self, page: Pid)
        requires { self.old.owner.account.seen.trail ≡ [] }
        ensures same { SameMap self.old.owner.table.value.slots self.new.owner.table.value.slots }
        ensures ready { IsReady self.new.owner.table.value self.new.owner.account.seen.trail }
        ensures config { self.new.owner.table.value.config ≡ self.old.owner.table.value.config }
    {
        let _posted = self.owner.help(Todo::Post(page));
        self.owner.forget();
    }

    /// Tends the edge's leaf, if it has no room.
    pub(crate) fn tend_edge(&mut self, edge: Edge)
        requires { self.old.owner.account.seen.trail ≡ [] }
        ensures same { SameMap self.old.owner.table.value.slots self.new.owner.table.value.slots }
        ensures ready { IsReady self.new.owner.table.value self.new.owner.account.seen.trail }
        ensures config { self.new.owner.table.value.config ≡ self.old.owner.table.value.config }
    {
        self.owner.table.value.law();
        if let Some(leaf) = edge.full_leaf() {
            let _fault = self.tend(leaf);
        }
    }
}

/// The parent of the leaf whose range holds the key, if there is one.
fn page_above_leaf<A: Allocator + Copy>(table: &Table<A>, key: Key) -> Option<Pid> {
    let mut place = table.root();
    if place.level == 0 {
        return None;
    }
    'down: loop {
        match table.visit(place, key, 1).go {
            Go::Right(next) | Go::Down(next) => place = next,
            Go::Here(view) => return Some(view.pid),
            Go::Gone => return None,
        }
    }
}
