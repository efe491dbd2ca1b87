//! A change of one key and the consolidation of its page, made in the place where the page lies.

ghost use Rattle.std.specs.Prelude.{◌≡◌, ◌≢◌, ◌⊎◌, ◌+◌, ◌<◌, ◌≤◌, ◌^◌, None, Some, true, false, IsTrue, IfSome, IfNone, IfOk, IfErr, OnOk, OnErr, is_ok, length};
ghost use Rattle.bw_delta.specs.declared.chain.Delta.TheVariants as deltas;
ghost use Rattle.bw_delta.specs.Entries.{at};
ghost use Rattle.bw_delta.specs.Fence.{is_leaf};
ghost use Rattle.bw_delta.specs.Pages.{upper_part};
ghost use Rattle.bw_delta.specs.Records.{Records, depth};
ghost use Rattle.bw_delta.specs.Slices.{list_of};
ghost use Rattle.bw_delta.specs.Sound.{page_for};
ghost use Rattle.bw_table.specs.Fields.{no_page};
ghost use Rattle.bw_table.specs.SlotFacts.{HasSoundChain, kept_from};
ghost use Rattle.bw_chain.specs.InPlaces.{WantsMemory, delta_for, inserts, is_flat};
ghost use Rattle.bw_chain.specs.Pages.Halves.{key_at, listed_key_at};
ghost use Rattle.bw_step.specs.declared.action.Action.TheVariants as actions;
ghost use Rattle.bw_step.specs.declared.view.Stage.TheVariants.{Posted};
ghost use Rattle.bw_step.specs.declared.receipt.Kind.TheVariants as kinds;
ghost use Rattle.bw_step.specs.declared.receipt.Receipt.TheVariants.{Shaped};
ghost use Rattle.bw_step.specs.Stages.{is_in_row};
ghost use Rattle.bw_step.specs.Tellings.{telling_of};
ghost use Rattle.bw_law.specs.Laws.{IsLeafOf};
ghost use Rattle.bw_law.specs.Refusals.{last_id};
ghost use Rattle.bw_law.specs.Slots.{slot_in, chain_in, pairs_in, routes_in};
ghost use Rattle.bw_law.specs.Tables.{TellsMap, slot_at, number_of, book_with};
ghost use Rattle.bw_table.specs.Actions.{Performs, IsUnfit, IsUsedUp, had_at};
ghost use Rattle.bw_table.specs.InPlaces.{IsPostedLeaf, IsWhyUndone, MayCut, MayPost, MayPostAtOnce, MaySplitAtOnce, MaySplitBefore, TakesCut, TakesInPlace, IsSplitAtOnce, IsSplitUnder, IsPosted, HasNoTerm, TakesTerm, slot_cut, IsDoneAtOnce, count_after, slot_with, slots_with, slots_posted_at_once, slots_split_at_once, receipt_for};

use crate::book::number_of;
use crate::link::{Link, NO_PAGE};
use crate::slot::{Kept, Slot};
use crate::table::Table;
use bw_chain::{InPlace, change_in_place, cut_in_place, route_in_place, upper_part_of};
use bw_delta::{Base, Delta, Entries, EntrySlice, Node};
use bw_keys::{Fence, FenceWord, Key, Pid, Wished};
use bw_step::{Book, Denied, Performed, Receipt, Stage, Unperformed};
use std::alloc::Allocator;

impl<A: Allocator + Copy> Table<A> {
    /// Changes a key as wished and consolidates its leaf, with the effect of a change step and a
    /// consolidation step. Changes nothing if a page on the way to the leaf is in the middle of a
    /// split or a merge, if the leaf has more than the record of its split, if a number is used up,
    /// or if memory is short. It isn't inlined: `perform` would grow too large to be inlined into
    /// its own callers.
    #[inline(never)]
    pub(super) fn perform_change(
        &mut self,
        key: Key,
        wished: Wished,
    ) -> Result<Performed, Unperformed>
        ensures { Performs (actions.Change key wished) self.old result self.new }
    {
        let Some(page) = self.page_to_change(key) else {
            return Err(Unperformed::StepByStep);
        };
        let Some(receipt) = self.change_at_rest(page, key, wished) else {
            if self.is_unfit(page) {
                return Err(Unperformed::StepByStep);
            }
            return Err(Unperformed::Denied(Denied::NoMemory));
        };
        Ok(self.performed(page, key, receipt))
    }

    /// Whether more than the record of its split stands on a leaf, or a number is used up.
    #[inline(never)]
    fn is_unfit(&self, page: Pid) -> bool
        requires { is_in_row (slot_at self.now page.0).stage ≡ true }
        ensures unfit { IsTrue result → IsUnfit self.now page.0 }
        ensures fit { result ≡ false → IsUnfit self.now page.0 → ⊥ }
    {
        !self.slot_in_row(page).is_flat() || !self.can_count_on(page)
    }

    /// Changes a key as wished on a page that the caller names, without a walk. Returns `None` and
    /// changes nothing if the page isn't a posted leaf whose range holds the key, if it has more
    /// than the record of its split, if a number is used up, or if memory for a new pair is short.
    #[inline(always)]
    pub fn change_leaf(&mut self, page: Pid, key: Key, wished: Wished) -> Option<Receipt>
        ensures done { IfSome result (λ receipt.
            IsDoneAtOnce self.old page.0 key wished receipt self.new) }
        ensures map { IfSome result (λ receipt.
            TellsMap (telling_of receipt) self.old.slots self.new.slots) }
        ensures leaf { IfSome result (λ _. IsLeafOf self.old key page.0) }
        ensures unchanged { IfNone result (self.new ≡ self.old) }
        ensures undone { IfNone result ((IsPostedLeaf (slot_at self.old page.0) key → ⊥)
            ⊎ IsUnfit self.old page.0 ⊎ (inserts wished (had_at self.old page.0 key) ≡ true)) }
    {
        if !self.slot(page)?.is_posted_leaf(key) {
            return None;
        }
        self.change_at_rest(page, key, wished)
    }

    /// The same on a posted leaf whose range holds the key, as a walk has found one. How many
    /// records stand on it is seen where the change is made.
    #[inline(always)]
    fn change_at_rest(&mut self, page: Pid, key: Key, wished: Wished) -> Option<Receipt>
        requires { IsPostedLeaf (slot_at self.old page.0) key }
        ensures done { IfSome result (λ receipt.
            IsDoneAtOnce self.old page.0 key wished receipt self.new) }
        ensures map { IfSome result (λ receipt.
            TellsMap (telling_of receipt) self.old.slots self.new.slots) }
        ensures leaf { IfSome result (λ _. IsLeafOf self.old key page.0) }
        ensures unchanged { IfNone result (self.new ≡ self.old) }
        ensures memory { IfNone result (IsUnfit self.old page.0
            ⊎ (inserts wished (had_at self.old page.0 key) ≡ true)) }
    {
        if !self.can_count_on(page) {
            return None;
        }
        let done = change_at(&mut self.slots, page, key, wished)?;
        Some(note(&mut self.book, key, done))
    }

    /// Whether the book's number can rise, and the version of the page twice.
    #[inline(always)]
    fn can_count_on(&self, page: Pid) -> bool
        requires { is_in_row (slot_at self.now page.0).stage ≡ true }
        ensures number { IsTrue result → number_of self.now.book + 1 < 2 ^ 64 }
        ensures version { IsTrue result → (slot_at self.now page.0).version + 2 < 2 ^ 64 }
        ensures used_up { result ≡ false → IsUsedUp self.now page.0 }
    {
        self.number() < u64::MAX && self.slot_in_row(page).version < u64::MAX - 1
    }
}

impl<A: Allocator + Copy> Table<A> {
    /// Names a page that no parent names yet in its parent, and consolidates the parent, with the
    /// effect of the two steps. Fails and changes nothing with `StepByStep` if the parent isn't a
    /// posted page without records whose range holds the low of the child, if it has a term that
    /// begins there, or if a number is used up, and with `NoMemory` if memory is short.
    pub fn post_at_once(&mut self, parent: Pid, child: Pid) -> Result<(), Unperformed>
        ensures posted { IsPosted self.old parent.0 child (is_ok result) self.new }
        ensures why { IfErr result (IsWhyUndone (MayPost self.old.slots parent.0 child.0)) }
    {
        if !self.may_post_at_once(parent, child) {
            return Err(Unperformed::StepByStep);
        }
        if let Err(why) = post_at(&mut self.slots, parent, child) {
            return Err(why);
        }
        self.page_finished();
        Ok(())
    }

    fn may_post_at_once(&self, parent: Pid, child: Pid) -> bool
        ensures may { IsTrue result
            → MayPostAtOnce (slot_at self.now parent.0) (slot_at self.now child.0) }
        ensures unfit { result ≡ false
            → MayPostAtOnce (slot_at self.now parent.0) (slot_at self.now child.0) → ⊥ }
    {
        let (Some(over), Some(under)) = (self.slot(parent), self.slot(child)) else {
            return false;
        };
        over.may_post(under)
    }
}

/// Adds the term in the slot of the parent, and posts the child.
fn post_at<A: Allocator + Copy>(
    slots: &mut Vec<Slot<A>>,
    parent: Pid,
    child: Pid,
) -> Result<(), Unperformed>
    requires exists { parent.0 < length slots.old.items }
    requires child_exists { child.0 < length slots.old.items }
    requires apart { child.0 ≢ parent.0 }
    requires takes { TakesTerm slots.old.items parent.0 child.0 }
    requires child_here { is_in_row (slot_in slots.old.items child.0).stage ≡ true }
    requires version { (slot_in slots.old.items child.0).version + 1 < 2 ^ 64 }
    ensures absent { OnOk result (HasNoTerm slots.old.items parent.0 child.0) }
    ensures inner { OnOk result (is_leaf (chain_in (slot_in slots.old.items parent.0)) ≡ false) }
    ensures posted { OnOk result
        (slots.new.items ≡ slots_posted_at_once parent.0 child slots.old.items) }
    ensures why { IfErr result (IsWhyUndone (HasNoTerm slots.old.items parent.0 child.0)) }
    ensures unchanged { OnErr result (slots.new.items ≡ slots.old.items) }
{
    let low = slots[child.0 as usize].low();
    if !slots[parent.0 as usize].route_in_place(low, child) {
        return Err(slots[parent.0 as usize].why_not_routed(low));
    }
    slots[child.0 as usize].post();
    Ok(())
}

impl<A: Allocator + Copy> Slot<A> {
    fn may_post(&self, under: &Slot<A>) -> bool
        ensures may { IsTrue result → MayPostAtOnce self.now under.now }
        ensures unfit { result ≡ false → MayPostAtOnce self.now under.now → ⊥ }
    {
        self.stage == Stage::Posted
            && under.stage == Stage::Unposted
            && self.is_above(under)
            && self.depth == 0
            && self.holds(under.low)
            && self.version < u64::MAX - 1
            && under.version < u64::MAX
    }

    /// Why an inner page without records got no route at the separator: it has one there, or memory
    /// was short.
    #[inline(never)]
    fn why_not_routed(&self, separator: Key) -> Unperformed
        ensures { IsWhyUndone (at separator (routes_in self.now) ≡ None) result }
    {
        match self.route_at(separator) {
            Some(_) => Unperformed::StepByStep,
            None => Unperformed::Denied(Denied::NoMemory),
        }
    }

    /// Adds a route in the base page's own list.
    fn route_in_place(&mut self, separator: Key, child: Pid) -> bool
        requires { TakesInPlace self.old separator }
        ensures absent { result ≡ true → at separator (routes_in self.old) ≡ None }
        ensures inner { result ≡ true → is_leaf (chain_in self.old) ≡ false }
        ensures routed { result ≡ true
            → self.new ≡ slot_with (Some (deltas.TermAdd separator child)) self.old }
        ensures unchanged { result ≡ false → self.new ≡ self.old }
    {
        if !self.stage.is_in_row() || !route_in_place(&mut self.chain, separator, child) {
            return false;
        }
        self.version += 2;
        self.count += 1;
        self.depth = 0;
        true
    }
}

impl<A: Allocator + Copy> Table<A> {
    /// Splits a page before the entry with the number, counted from 0, and consolidates it, with the
    /// effect of the two steps. The new page has room for as many entries as it may get before it is
    /// split. Returns the new page. Fails and changes nothing with `StepByStep` if the page isn't
    /// posted or has records, if the entry is the first, is missing, or leads to a page that is
    /// leaving, if no slot is free, or if a number is used up, and with `NoMemory` if memory is
    /// short.
    pub fn split_at_once(&mut self, page: Pid, number: usize) -> Result<Pid, Unperformed>
        ensures done { IfOk result (λ new.
            IsSplitAtOnce self.old page.0 number (Shaped kinds.Split page (Some new)) self.new) }
        ensures why { IfErr result (IsWhyUndone (MaySplitBefore self.old page.0 number)) }
        ensures unchanged { OnErr result (self.new ≡ self.old) }
    {
        let Some(separator) = self.key_at(page, number) else {
            return Err(Unperformed::StepByStep);
        };
        let Some(new) = self.slot_to_split_to(page, separator) else {
            return Err(Unperformed::StepByStep);
        };
        let Some((_separator, base)) = self.upper_part(page, number) else {
            return Err(Unperformed::Denied(Denied::NoMemory));
        };
        cut_at(&mut self.slots, page, new, separator, base);
        let _new = self.free.take_last();
        self.last_leaf = NO_PAGE;
        self.guide.note_unfinished();
        Ok(new)
    }

    /// Splits a page as [`Table::split_at_once`] does, then names the new page in the parent as
    /// [`Table::post_at_once`] does. Returns the new page, and whether it is posted or why not:
    /// where the parent doesn't take it, the page is split all the same. Fails and changes nothing
    /// where the page isn't split.
    pub fn split_under(
        &mut self,
        parent: Pid,
        page: Pid,
        number: usize,
    ) -> Result<(Pid, Result<(), Unperformed>), Unperformed>
        ensures done { IfOk result (λ done.
            IsSplitUnder self.old parent.0 page.0 number done.0 (is_ok done.1) self.new) }
        ensures unposted { IfOk result (λ done. IfErr done.1
            (IsWhyUndone (MayPost self.new.slots parent.0 done.0.0))) }
        ensures why { IfErr result (IsWhyUndone (MaySplitBefore self.old page.0 number)) }
        ensures unchanged { OnErr result (self.new ≡ self.old) }
    {
        let new = match self.split_at_once(page, number) {
            Ok(new) => new,
            Err(why) => return Err(why),
        };
        let posted = self.post_at_once(parent, new);
        Ok((new, posted))
    }

    /// The key of the page's entry with the number, where no record stands on it.
    fn key_at(&self, page: Pid, number: usize) -> Option<Key>
        ensures key { IfSome result (λ key.
            listed_key_at number (page_for (chain_in (slot_at self.now page.0))).listed
            ≡ Some key) }
        ensures missing { IfNone result (MaySplitBefore self.now page.0 number → ⊥) }
    {
        self.slot(page)?.key_at(number)
    }

    /// The free page for the upper part of the page, if the page may be split at the separator.
    fn slot_to_split_to(&self, page: Pid, separator: Key) -> Option<Pid>
        ensures may { IfSome result (λ new. MaySplitAtOnce self.now page.0 separator) }
        ensures last { IfSome result (λ new. Some new.0 ≡ last_id self.now.free) }
        ensures unfit { IfNone result (MaySplitAtOnce self.now page.0 separator → ⊥) }
    {
        let id = self.free.last()?;
        if !self.may_split_at_once(page, separator) {
            return None;
        }
        Some(Pid(id))
    }

    fn may_split_at_once(&self, page: Pid, separator: Key) -> bool
        ensures may { IsTrue result → MaySplitAtOnce self.now page.0 separator }
        ensures unfit { result ≡ false → MaySplitAtOnce self.now page.0 separator → ⊥ }
    {
        let (Some(slot), Some(new)) = (self.slot(page), self.new_slot()) else {
            return false;
        };
        slot.may_cut(separator) && !new.is_worn() && !self.is_leaving_at(slot, separator)
    }

    /// The page's entries from the one with the number on, with the key of that, if there is memory.
    fn upper_part(&self, page: Pid, number: usize) -> Option<(Key, Base<A>)>
        ensures separator { IfSome result (λ part.
            listed_key_at number (page_for (chain_in (slot_at self.now page.0))).listed
            ≡ Some part.0) }
        ensures page { IfSome result (λ part.
            part.1 ≡ upper_part part.0 (page_for (chain_in (slot_at self.now page.0)))) }
    {
        let room = self.config.fanout as usize + 1;
        self.slot(page)?.upper_part(number, room)
    }
}

/// The key of the entry with the number, counted from 0, if there is one.
fn key_of<A: Allocator + Copy>(base: &Base<A>, number: usize) -> Option<Key>
    ensures { result ≡ listed_key_at number base.now.listed }
{
    match &base.entries {
        Entries::Pairs(pairs) => key_listed(pairs.as_slice(), number),
        Entries::Routes(routes) => key_listed(routes.as_slice(), number),
    }
}

fn key_listed<X: Copy>(entries: EntrySlice<'_, X>, number: usize) -> Option<Key>
    ensures { result ≡ key_at number (list_of entries.entry) }
{
    if entries.len() <= number {
        return None;
    }
    Some(entries.key(number))
}

/// Ends the page before the separator, and moves its upper part to the new one.
fn cut_at<A: Allocator + Copy>(
    slots: &mut Vec<Slot<A>>,
    page: Pid,
    new: Pid,
    separator: Key,
    base: Base<A>,
)
    requires exists { page.0 < length slots.old.items }
    requires new_exists { new.0 < length slots.old.items }
    requires apart { new.0 ≢ page.0 }
    requires takes { TakesCut (slot_in slots.old.items page.0) separator }
    requires link { new.0 < no_page }
    requires new_version { (slot_in slots.old.items new.0).version + 1 < 2 ^ 64 }
    ensures { slots.new.items ≡ slots_split_at_once page.0 new separator base slots.old.items }
{
    let count = base.len() as u64;
    let upper = slots[page.0 as usize].cut_in_place(separator, new, count);
    slots[new.0 as usize].hold(Stage::Unposted, upper, base);
}

impl<A: Allocator + Copy> Slot<A> {
    /// The key of the entry with the number, where no record stands on the chain.
    fn key_at(&self, number: usize) -> Option<Key>
        ensures key { IfSome result (λ key.
            listed_key_at number (page_for (chain_in self.now)).listed ≡ Some key) }
        ensures missing { IfNone result ((chain : Records) → self.now.chain ≡ Some chain
            → depth chain ≡ 0 → listed_key_at number (page_for (chain_in self.now)).listed ≡ None) }
    {
        key_of(self.bare_page()?, number)
    }

    /// Its entries from the one with the number on, with the key of that.
    fn upper_part(&self, number: usize, room: usize) -> Option<(Key, Base<A>)>
        ensures separator { IfSome result (λ part.
            listed_key_at number (page_for (chain_in self.now)).listed ≡ Some part.0) }
        ensures page { IfSome result (λ part.
            part.1 ≡ upper_part part.0 (page_for (chain_in self.now))) }
    {
        match self.chain() {
            Some(chain) => upper_part_of(chain, number, room),
            None => None,
        }
    }

    fn may_cut(&self, separator: Key) -> bool
        requires sound { HasSoundChain self.now }
        ensures may { IsTrue result → MayCut self.now separator }
        ensures unfit { result ≡ false → MayCut self.now separator → ⊥ }
    {
        self.stage == Stage::Posted
            && self.depth == 0
            && self.version < u64::MAX - 1
            && self.low < separator
            && self.holds(separator)
            && self.is_later_key(separator)
    }

    /// Ends the page before the separator, and returns what is kept of the part from it on.
    fn cut_in_place(&mut self, separator: Key, new: Pid, count: u64) -> Kept
        requires takes { TakesCut self.old separator }
        requires link { new.0 < no_page }
        ensures upper { result ≡ kept_from separator count self.old }
        ensures lower { self.new ≡ slot_cut separator new count self.old }
    {
        let upper = self.kept_from(separator, count);
        if !self.stage.is_in_row() || !cut_in_place(&mut self.chain, separator, new) {
            unreachable!()
        }
        self.version += 2;
        self.count = self.count.saturating_sub(count);
        self.depth = 0;
        self.high = FenceWord::new(Fence::Key(separator));
        self.right = Link::to(new);
        upper
    }
}

/// Carries out the wish in the slot of a leaf.
#[inline(always)]
fn change_at<A: Allocator + Copy>(
    slots: &mut Vec<Slot<A>>,
    page: Pid,
    key: Key,
    wished: Wished,
) -> Option<InPlace>
    requires exists { page.0 < length slots.old.items }
    requires takes { TakesInPlace (slot_in slots.old.items page.0) key }
    ensures had { IfSome result (λ done.
        done.had ≡ at key (pairs_in (slot_in slots.old.items page.0))) }
    ensures delta { IfSome result (λ done. done.delta ≡ delta_for wished key done.had) }
    ensures changed { IfSome result (λ done.
        slots.new.items ≡ slots_with page.0 done.delta slots.old.items) }
    ensures shallow { IfSome result (λ done.
        depth (chain_in (slot_in slots.old.items page.0)) ≤ 1) }
    ensures unchanged { IfNone result (slots.new.items ≡ slots.old.items) }
    ensures memory { IfNone result ((chain : Records)
        → (slot_in slots.old.items page.0).chain ≡ Some chain → WantsMemory chain key wished) }
{
    slots[page.0 as usize].change_in_place(key, wished)
}

/// Counts what was done in the book, and returns its receipt.
#[inline(always)]
fn note(book: &mut Book, key: Key, done: InPlace) -> Receipt
    requires number { number_of book.old + 1 < 2 ^ 64 }
    ensures receipt { result ≡ receipt_for (number_of book.old) key done.had done.delta }
    ensures book { book.new ≡ book_with book.old (telling_of result) }
{
    let number = number_of(*book);
    match done.delta {
        Some(Delta::Insert(key, value)) => {
            book.inserted += 1;
            Receipt::Inserted {
                number: number + 1,
                key,
                value,
            }
        }
        Some(Delta::Modify(key, value)) => {
            book.modified += 1;
            Receipt::Modified {
                number: number + 1,
                key,
                old: done.had.unwrap_or(0),
                value,
            }
        }
        Some(Delta::Delete(key)) => {
            book.removed += 1;
            Receipt::Deleted {
                number: number + 1,
                key,
                value: done.had.unwrap_or(0),
            }
        }
        _ => Receipt::Looked {
            at: number,
            key,
            found: done.had,
        },
    }
}

impl<A: Allocator + Copy> Slot<A> {
    /// Whether this is a posted leaf whose range holds the key.
    #[inline(always)]
    pub(crate) fn is_posted_leaf(&self, key: Key) -> bool
        ensures leaf { IsTrue result → IsPostedLeaf self.now key }
        ensures unfit { result ≡ false → IsPostedLeaf self.now key → ⊥ }
    {
        self.stage == Stage::Posted && self.level == 0 && self.holds(key)
    }

    /// Whether no record stands on the page, or only that of its split.
    fn is_flat(&self) -> bool
        ensures { result ≡ is_flat (chain_in self.now) }
    {
        match self.chain() {
            Some(chain) => match &chain.node {
                Node::Bare(_) => true,
                Node::Above(Delta::Split(_, _), below) => matches!(&below.node, Node::Bare(_)),
                Node::Above(_, _) | Node::Merged(_, _, _) => false,
            },
            None => true,
        }
    }

    /// Carries out the wish in the base page's own list.
    #[inline(always)]
    fn change_in_place(&mut self, key: Key, wished: Wished) -> Option<InPlace>
        requires { TakesInPlace self.old key }
        ensures had { IfSome result (λ done. done.had ≡ at key (pairs_in self.old)) }
        ensures delta { IfSome result (λ done. done.delta ≡ delta_for wished key done.had) }
        ensures changed { IfSome result (λ done. self.new ≡ slot_with done.delta self.old) }
        ensures shallow { IfSome result (λ done. depth (chain_in self.old) ≤ 1) }
        ensures unchanged { IfNone result (self.new ≡ self.old) }
        ensures memory { IfNone result ((chain : Records)
            → self.old.chain ≡ Some chain → WantsMemory chain key wished) }
    {
        if !self.stage.is_in_row() {
            return None;
        }
        let done = change_in_place(&mut self.chain, key, wished)?;
        if let Some(delta) = done.delta {
            self.version += 2;
            let count = count_after(delta, self.count);
            settle(&mut self.count, count);
            settle_depth(&mut self.depth);
        }
        Some(done)
    }
}

/// Writes the number where another one stands. A cache line that isn't written stays with the other
/// processors that read it.
#[inline(always)]
fn settle(number: &mut u64, value: u64)
    ensures { number.new ≡ value }
{
    if *number != value {
        *number = value;
    }
}

/// Writes 0 where another depth stands, as [`settle`] does.
#[inline(always)]
fn settle_depth(depth: &mut u8)
    ensures { depth.new ≡ 0 }
{
    if *depth != 0 {
        *depth = 0;
    }
}

/// How many entries there are with the record.
#[inline(always)]
fn count_after(delta: Delta, count: u64) -> u64
    requires { count + 1 < 2 ^ 64 }
    ensures { result ≡ count_after delta count }
{
    match delta {
        Delta::Insert(_, _) | Delta::TermAdd(_, _) => count + 1,
        Delta::Delete(_) | Delta::TermDelete(_) => count.saturating_sub(1),
        Delta::Modify(_, _) | Delta::Split(_, _) | Delta::Remove => count,
    }
}
