ghost use Rattle.std.specs.Prelude.{◌≡◌, ◌≤◌, ℕ, None, IsOk, IfOk, IfErr, IfSome, IfNone, option_map, option_copied};
ghost use Rattle.bw_keys.specs.Limits.{first_bad_field};
ghost use Rattle.bw_step.specs.declared.view.Stage.TheVariants.{Merged};
ghost use Rattle.bw_law.specs.Slots.{free_slot};
ghost use Rattle.bw_law.specs.Tables.{Lawful, Booked, HasNothing, IsValueAt, slot_at, number_of, new_table};
ghost use Rattle.bw_law.specs.Refusals.{last_id};
ghost use Rattle.bw_table.specs.Answers.{IsNewFault};
ghost use Rattle.bw_table.specs.SlotFacts.{HasSoundChain};
ghost use Rattle.bw_table.specs.Views.{view_at, summary_at, look_at, root_place};
ghost use Rattle.bw_table.specs.Visits.{IsOnTheWay};

use crate::book::number_of;
use crate::fault::NewFault;
use crate::free::FreeList;
use crate::fresh::first_slots;
use crate::guide::Guide;
use crate::link::NO_PAGE;
use crate::slot::Slot;
use bw_delta::NoMemory;
use bw_keys::{Config, Key, Pid};
use bw_step::{Book, Look, Place, Stage, Summary, View};
use std::alloc::{Allocator, Global};
use std::marker::Model;

/// The mapping table: an entry for each page id, the ids that are free, the root, and the book of
/// the map's changes. The law of the tree is a fact of this type.
///
/// The book comes first, as each change writes it: so it is beside a lock that stands before the
/// table, in the cache line that whoever takes the lock has to have.
#[derive(Drop)]
pub struct Table<A: Allocator> {
    pub(crate) book: Book,
    pub(crate) root: u32,
    // A hint: the last leaf, or no page, and the key from which on changes ask it first.
    pub(crate) last_leaf: u32,
    pub(crate) last_from: Key,
    // A hint: which leaf a key is likely to be in.
    pub(crate) guide: Guide,
    pub(crate) slots: Vec<Slot<A>>,
    pub(crate) free: FreeList,
    pub(crate) config: Config,
    // Where the chains lie.
    pub(crate) alloc: A,
}

impl<A: Allocator> Model for Table<A> {
    ghost use Rattle.bw_law.specs.Tables.{TableValue};
    ghost use Rattle.bw_table.specs.Codes.{table_code};
    ghost use Rattle.bw_table.specs.Whole.{IsWhole, table_of};

    ghost Value = { TableValue };

    ghost coded = { table_code };

    ghost view = { λ t. table_of t.slots.items t.free.ids t.root t.book t.config };

    ghost invariant = { λ t.
        IsWhole (table_of t.slots.items t.free.ids t.root t.book t.config) t.free.room };
}

impl<A: Allocator + Copy> Table<A> {
    /// Makes a table without pairs: page 0 is an empty leaf for all keys, and every other slot is free.
    /// The chains will lie in `alloc`, all else in the machine's memory.
    pub fn new(machine: Global, alloc: A, config: Config) -> Result<Table<A>, NewFault>
        ensures ok { IfOk result (λ table. table ≡ new_table config) }
        ensures fine { IsOk result → first_bad_field config ≡ None }
        ensures fault { IfErr result (IsNewFault config) }
    {
        if let Err(bad) = config.check() {
            return Err(NewFault::BadConfig(bad));
        }
        match Table::fresh(machine, alloc, config) {
            Ok(table) => Ok(table),
            Err(NoMemory) => Err(NewFault::NoMemory),
        }
    }

    fn fresh(machine: Global, alloc: A, config: Config) -> Result<Table<A>, NoMemory>
        requires { first_bad_field config ≡ None }
        ensures { IfOk result (λ table. table ≡ new_table config) }
    {
        let slots = first_slots(machine, alloc, config.pages, config.first_version)?;
        let free = FreeList::new(machine, config.pages)?;
        Ok(Table {
            slots,
            free,
            root: 0,
            last_leaf: NO_PAGE,
            last_from: 0,
            guide: Guide::new(machine),
            book: Book {
                inserted: 0,
                removed: 0,
                modified: 0,
            },
            config,
            alloc,
        })
    }

    /// Does nothing. The contract states the law that every table keeps, for a caller whose proof
    /// needs it.
    #[inline(always)]
    pub fn law(&self)
        ensures lawful { Lawful self.now }
        ensures booked { Booked self.now }
    {
        // The law of the table is known where one of its fields is read.
        let _ = &self.slots;
    }

    /// Returns the configuration that the table was made with.
    #[inline(always)]
    pub fn config(&self) -> Config
        ensures config { result ≡ self.now.config }
        ensures lawful { Lawful self.now }
        ensures booked { Booked self.now }
    {
        self.config
    }

    /// Returns the place where every search begins.
    #[inline(always)]
    pub fn root(&self) -> Place
        ensures place { result ≡ root_place self.now }
        ensures on_the_way { (key goal : ℕ) → goal ≤ result.level
            → IsOnTheWay self.now result key goal }
    {
        Place {
            pid: Pid(self.root),
            level: self.root_slot().level,
            from: 0,
        }
    }

    /// Returns the page with the id, if the id isn't past the end and its slot isn't free.
    #[inline(always)]
    pub fn peek(&self, pid: Pid) -> Option<View>
        ensures view { result ≡ view_at self.now pid }
        ensures merged { IfSome result (λ view.
            view.stage ≡ Merged → HasNothing view.high view.right view.count view.depth) }
    {
        let slot = self.slot(pid)?;
        if slot.stage == Stage::Free {
            return None;
        }
        Some(slot.view(pid))
    }

    /// Returns what is kept of the page beside its chain, where `peek` sees it.
    pub fn summary(&self, pid: Pid) -> Option<Summary>
        ensures summary { result ≡ summary_at self.now pid }
        ensures merged { (slot_at self.now pid.0).stage ≡ Merged
            → IfSome result (λ summary.
            HasNothing summary.high summary.right summary.count summary.depth) }
    {
        let slot = self.slot(pid)?;
        if slot.stage == Stage::Free {
            return None;
        }
        Some(slot.summary())
    }

    /// Returns what the map has at the key, if the page is a leaf in its row whose range holds the
    /// key.
    #[inline(always)]
    pub fn look(&self, pid: Pid, key: Key) -> Option<Look>
        ensures look { result ≡ look_at self.now pid.0 key }
        ensures map { IfSome result (λ look. IsValueAt self.now.slots key look.found) }
    {
        let slot = self.slot(pid)?;
        if !slot.is_leaf_in_row() || !slot.holds(key) {
            return None;
        }
        Some(Look {
            found: slot.find(key),
            at: self.number(),
        })
    }

    /// Returns the number of changes of the map so far.
    #[inline(always)]
    pub fn number(&self) -> u64
        ensures { result ≡ number_of self.now.book }
    {
        number_of(self.book)
    }

    /// The slot of a page, if the id isn't past the end.
    #[tactic(auto, using(crate::proofs::Whole::has_sound_chain))]
    #[inline(always)]
    pub(crate) fn slot(&self, pid: Pid) -> Option<&Slot<A>>
        ensures there { IfSome result (λ slot. slot.now ≡ slot_at self.now pid.0) }
        ensures nowhere { IfNone result (slot_at self.now pid.0 ≡ free_slot 0) }
        ensures sound { HasSoundChain (slot_at self.now pid.0) }
        ensures lawful { Lawful self.now }
    {
        self.slots.get(pid.0 as usize)
    }

    #[inline(always)]
    pub(crate) fn root_slot(&self) -> &Slot<A>
        ensures { result.now ≡ slot_at self.now self.now.root }
    {
        &self.slots[self.root as usize]
    }

    /// The slot that a new page takes, if one is free.
    pub(crate) fn new_slot(&self) -> Option<&Slot<A>>
        ensures { option_copied result ≡ option_map (slot_at self.now) (last_id self.now.free) }
    {
        let id = self.free.last()?;
        Some(&self.slots[id as usize])
    }
}
