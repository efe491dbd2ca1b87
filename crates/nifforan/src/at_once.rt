//! Changes of a key in one action of the table, however little effort a call may spend, and what
//! its leaf needs after that.

ghost use Rattle.std.specs.Prelude.{◌≡◌, ◌↔◌, ◌≤◌, ℕ, [], None, Some, IsTrue, IfSome, IfNone, IfOk, IfErr, OnErr};
ghost use Rattle.bw_keys.specs.declared.wished.Wished.TheVariants as wishes;
ghost use Rattle.bw_step.specs.Tellings.{telling_of};
ghost use Rattle.bw_step.specs.declared.action.Action.TheVariants as actions;
ghost use Rattle.bw_law.specs.Tables.{SameMap, TellsMap};
ghost use Rattle.bw_table.specs.Actions.{IsPerformed, IsWhyNot};
ghost use Rattle.bw_procedures.specs.Writing.{IsReceiptFor, IsReceiptOfPut};
ghost use Rattle.bw_procedures.specs.declared.fault.Fault.TheVariants as faults;
ghost use Rattle.nifforan.specs.AtOnce.{ChangesBy, IsWhyUnchanged, MayStay};
ghost use Rattle.nifforan.specs.Growing.{HasAllPages};
ghost use Rattle.nifforan.specs.Maps.{IsReady, map_upto};

use crate::in_place::Found;
use crate::map::Map;
use crate::worker::Worker;
use bw_keys::{Key, Pid};
use bw_procedures::{Calls, Fault, Put, Steps};
use bw_table::{Action, Performed, Receipt, Table, Unperformed, Wished};
use std::alloc::Allocator;

impl<A: Allocator + Copy> Map<A> {
    /// Carries out the wish for the key in one action.
    #[inline(always)]
    pub(crate) fn change(&mut self, key: Key, wished: Wished) -> Result<Performed, Unperformed>
        ensures done { IfOk result
            (IsPerformed self.old.table (actions.Change key wished) self.new.table) }
        ensures reported { IfOk result (λ done. IsReceiptFor key wished done.receipt) }
        ensures change { IfOk result
            (λ done. ChangesBy key wished done.receipt self.old.pairs self.new.pairs) }
        ensures why { IfErr result (IsWhyUnchanged key wished self.old) }
        ensures unchanged { OnErr result (self.new ≡ self.old) }
        ensures map { self.new ≡ map_upto self.old.config.pages self.new.table }
        ensures pages { self.new.pages ≡ self.old.pages }
        ensures config { self.new.config ≡ self.old.config }
    {
        self.worker.change(key, wished)
    }

    /// Carries out the wish for the key, which was looked up, without a search. None, and nothing
    /// changed, where its leaf wasn't found or doesn't take the change in one action.
    #[inline(always)]
    pub(crate) fn change_found(
        &mut self,
        found: Found,
        key: Key,
        wished: Wished,
    ) -> Option<Performed>
        ensures reported { IfSome result (λ done. IsReceiptFor key wished done.receipt) }
        ensures change { IfSome result
            (λ done. ChangesBy key wished done.receipt self.old.pairs self.new.pairs) }
        ensures unchanged { IfNone result (self.new ≡ self.old) }
        ensures pages { self.new.pages ≡ self.old.pages }
        ensures config { self.new.config ≡ self.old.config }
    {
        self.worker.change_found(found, key, wished)
    }

    /// Tends the leaf of a change, unless it may stay as it is, and returns the fault that ended
    /// this, if one did.
    #[inline(always)]
    pub(crate) fn tend_changed(&mut self, done: Performed) -> Option<Fault>
        ensures stays { MayStay self.old.table done → (result ≡ None) × (self.new ≡ self.old) }
        ensures same { self.new.pairs ≡ self.old.pairs }
        ensures full { result ≡ Some faults.TableFull → HasAllPages self.new }
        ensures pages { self.old.pages ≤ self.new.pages }
        ensures config { self.new.config ≡ self.old.config }
    {
        if may_stay(&self.worker.owner.table.value, done) {
            return None;
        }
        self.tend_leaf(done.page)
    }

    /// Tends a leaf, with pages enough for its split.
    #[inline(never)]
    fn tend_leaf(&mut self, leaf: Pid) -> Option<Fault>
        ensures same { self.new.pairs ≡ self.old.pairs }
        ensures full { result ≡ Some faults.TableFull → HasAllPages self.new }
        ensures pages { self.old.pages ≤ self.new.pages }
        ensures config { self.new.config ≡ self.old.config }
    {
        self.make_room();
        let ended = self.tend_in_room(leaf);
        self.cause(ended)
    }

    /// Tends a leaf, with the pages that are there.
    fn tend_in_room(&mut self, leaf: Pid) -> Option<Fault>
        ensures same { self.new.pairs ≡ self.old.pairs }
        ensures pages { self.new.pages ≡ self.old.pages }
        ensures config { self.new.config ≡ self.old.config }
    {
        self.worker.tend(leaf)
    }
}

impl<A: Allocator + Copy> Worker<A> {
    /// Carries out the wish for the key in one action.
    #[inline(always)]
    fn change(&mut self, key: Key, wished: Wished) -> Result<Performed, Unperformed>
        requires { self.old.owner.account.seen.trail ≡ [] }
        ensures done { IfOk result (IsPerformed self.old.owner.table.value
            (actions.Change key wished) self.new.owner.table.value) }
        ensures why { IfErr result
            (IsWhyNot self.old.owner.table.value (actions.Change key wished)) }
        ensures reported { IfOk result (λ done. IsReceiptFor key wished done.receipt) }
        ensures map { IfOk result (λ done. TellsMap (telling_of done.receipt)
            self.old.owner.table.value.slots self.new.owner.table.value.slots) }
        ensures ready { IsReady self.new.owner.table.value self.new.owner.account.seen.trail }
        ensures config { self.new.owner.table.value.config ≡ self.old.owner.table.value.config }
        ensures unchanged { OnErr result (self.new ≡ self.old) }
    {
        let alloc = self.owner.alloc();
        let table = &mut self.owner.table.value;
        table.law();
        let result = table.perform(alloc, Action::Change { key, wished }, None);
        table.law();
        result
    }

    /// Tends the page, and returns the fault that ended this, if one did.
    pub(crate) fn tend(&mut self, page: Pid) -> Option<Fault>
        requires { self.old.owner.account.seen.trail ≡ [] }
        ensures same { SameMap self.old.owner.table.value.slots self.new.owner.table.value.slots }
        ensures ready { IsReady self.new.owner.table.value self.new.owner.account.seen.trail }
        ensures config { self.new.owner.table.value.config ≡ self.old.owner.table.value.config }
    {
        let tended = self.owner.tend(page);
        self.owner.forget();
        tended.err()
    }
}

/// Returns what a put replies whose receipt this is.
#[inline(always)]
pub(crate) fn put_of(receipt: Receipt) -> Put
    ensures { (key value : ℕ) → IsReceiptFor key (wishes.Put value) receipt
        → IsReceiptOfPut key value result receipt }
{
    match receipt {
        Receipt::Looked {
            found: Some(there),
            ..
        } => Put::Present(there),
        _ => Put::Inserted,
    }
}

/// Whether the leaf of a change is as it was, or is neither to be split nor to be merged.
#[inline(always)]
fn may_stay<A: Allocator + Copy>(table: &Table<A>, done: Performed) -> bool
    ensures { IsTrue result ↔ MayStay table.now done }
{
    let fanout = u64::from(table.config().fanout);
    matches!(done.receipt, Receipt::Looked { .. })
        || done.count <= fanout && (done.count >= fanout / 4 || done.page.0 == table.root().pid.0)
}
