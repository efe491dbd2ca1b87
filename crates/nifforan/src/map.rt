ghost use Rattle.std.specs.Prelude.{◌≡◌, ◌↔◌, ℕ, ◌+◌, ◌-◌, ◌^◌, ◌<◌, ◌≤◌, [], None, Some};
ghost use Rattle.std.specs.Prelude.{length, map, true};
ghost use Rattle.std.specs.Prelude.{IsTrue, IsSome, IsOk, IfOk, IfErr, OnErr};
ghost use Rattle.bw_keys.specs.Ranges.{end_of, key_count};
ghost use Rattle.bw_keys.specs.declared.wished.Wished.TheVariants as wishes;
ghost use Rattle.bw_delta.specs.Entries.{at, rises};
ghost use Rattle.bw_delta.specs.Entries.{first_entry, last_entry, first_from, last_upto};
ghost use Rattle.bw_law.specs.Tables.{new_table};
ghost use Rattle.bw_procedures.specs.declared.fault.Fault.TheVariants as faults;
ghost use Rattle.nifforan.specs.AtOnce.{IsAtRest, IsOneAction};
ghost use Rattle.nifforan.specs.Calls.{Puts, Sets, Deletes, Clears};
ghost use Rattle.nifforan.specs.Growing.{HasAllPages, fault_reported};
ghost use Rattle.nifforan.specs.Maps.{map_of, map_upto, pairs_of, between, within};
ghost use Rattle.nifforan.specs.Maps.{before_put, before_set, before_delete};
ghost use Rattle.nifforan.specs.Settings.{first_bad_setting, first_pages, IsMapFault};

use crate::at_once::put_of;
use crate::bounds::{end_fence, first_key, start_fence};
use crate::iter::Iter;
use crate::pairs::Pairs;
use crate::worker::Worker;
use bw_delta::EntrySlice;
use bw_keys::{Config, Fence, Key};
use bw_procedures::{Cleared, Del, Done, Fault, Put, Set};
use bw_table::{MAX_PAGES, NewFault, Table, Unperformed, Wished};
use std::alloc::{Allocator, Global};
use std::marker::Model;
use std::ops::RangeBounds;

/// An ordered map from u64 keys to u64 values, for one thread.
///
/// A call that changes it may end with a fault: `NoMemory` if an allocation was refused, be it for
/// more pages; `TableFull` if the map has all its pages and none was free; `TooTall` if the tree
/// has its greatest height; `Worn` if a page's version or the number of changes is used up; and
/// `Contended` if the call spent the effort that the configuration allows. A fault in place of a
/// reply leaves the pairs unchanged. A fault beside a reply, in `Done::fault`, has only cut page
/// maintenance short, which a later call resumes.
///
/// A put, a set and a delete take one action if a search for the key meets nothing unfinished,
/// however little effort the configuration allows, and fail only if memory for a new pair is refused.
#[derive(Drop)]
pub struct Map<A: Allocator + Copy> {
    pub(crate) worker: Worker<A>,
    /// The most pages that the table may have.
    pub(crate) most: u32,
}

impl<A: Allocator + Copy> Model for Map<A> {
    ghost use Rattle.nifforan.specs.Maps.{MapValue, map_code, map_upto, IsReadyUpto};

    ghost Value = { MapValue };

    ghost coded = { map_code };

    ghost view = { λ m. map_upto m.most m.worker.owner.table.value };

    ghost invariant = { λ m.
        IsReadyUpto m.most m.worker.owner.table.value m.worker.owner.account.seen.trail };
}

impl<A: Allocator + Copy> Map<A> {
    /// Creates an empty map. Its pairs will lie in `alloc`, everything else in the machine's
    /// memory. It begins with a few pages, and doubles them as it grows, up to `config.pages`, at
    /// most [`MAX_PAGES`]. Fails if a field of the configuration is out of its range, or if memory
    /// is short.
    pub fn new(machine: Global, alloc: A, config: Config) -> Result<Map<A>, NewFault>
        ensures config { IfOk result (λ map. map.config ≡ config) }
        ensures empty { IfOk result (λ map. map.pairs ≡ []) }
        ensures table { IfOk result
            (λ map. map.table ≡ new_table (record config { pages = 8 })) }
        ensures rests { config.first_version + 2 < 2 ^ 64
            → IfOk result (λ map. (key : ℕ) → IsAtRest map.table key) }
        ensures pages { IfOk result (λ map. map.pages ≡ 8) }
        ensures free { IfOk result (λ map. map.free ≡ config.pages - 1) }
        ensures fine { IsOk result → first_bad_setting config ≡ None }
        ensures fault { IfErr result (IsMapFault config) }
    {
        let first = Config {
            pages: first_pages(config.pages),
            ..config
        };
        let table = Table::new(machine, alloc, first)?;
        Ok(Map {
            worker: Worker::new(machine, alloc, table),
            most: config.pages,
        })
    }

    /// Creates a map from the table, which never has more pages than the table. New pairs will lie
    /// in `alloc`, everything else in the machine's memory.
    pub fn from_table(machine: Global, alloc: A, table: Table<A>) -> Map<A>
        ensures { result ≡ map_of table }
    {
        let most = table.config().pages;
        Map {
            worker: Worker::new(machine, alloc, table),
            most,
        }
    }

    /// Returns the table, with its pairs and all its pages.
    pub fn into_table(self) -> Table<A>
        ensures { map_upto self.config.pages result ≡ self }
    {
        let Map { worker, .. } = self;
        worker.into_table()
    }

    /// Lends the table, for reading.
    pub fn table(&self) -> &Table<A>
        ensures { map_upto self.now.config.pages result.now ≡ self.now }
    {
        &self.worker.owner.table.value
    }

    /// Returns the configuration that the map was made with.
    pub fn config(&self) -> Config
        ensures { result ≡ self.now.config }
    {
        Config {
            pages: self.most,
            ..self.worker.owner.table.value.config()
        }
    }

    /// Does nothing. The contract states that the keys of the pairs rise, and that the map has no
    /// more pages than it may have, for a caller whose proof needs it.
    #[inline(always)]
    pub fn law(&self)
        ensures rise { rises 0 key_count self.now.pairs ≡ true }
        ensures pages { self.now.pages ≤ self.now.config.pages }
    {
        // Reading the worker yields the law of its table.
        let _worker = &self.worker;
    }

    /// Returns the number of pairs, in constant time.
    pub fn len(&self) -> u64
        ensures { result ≡ length self.now.pairs }
    {
        let book = self.worker.owner.table.value.book();
        book.inserted - book.removed
    }

    /// Returns whether the map has no pair.
    pub fn is_empty(&self) -> bool
        ensures { IsTrue result ↔ (self.now.pairs ≡ []) }
    {
        self.len() == 0
    }

    /// Returns the number of pages that the map has memory for, in constant time. It takes memory
    /// for more as it grows, up to `Config::pages`, or ahead of that, by `reserve`.
    pub fn pages(&self) -> usize
        ensures { result ≡ self.now.pages }
    {
        self.worker.owner.table.value.config().pages as usize
    }

    /// Returns how many more pages the map has room for, in constant time.
    pub fn free_pages(&self) -> usize
        ensures { result ≡ self.now.free }
    {
        let table = &self.worker.owner.table.value;
        (self.most - table.config().pages) as usize + table.free_pages()
    }

    /// Returns whether the map has no room for another page, in constant time. If so, no page is
    /// split, and a call that would split one reports [`Fault::TableFull`].
    pub fn is_full(&self) -> bool
        ensures { IsTrue result ↔ (self.now.free ≡ 0) }
    {
        self.free_pages() == 0
    }

    /// Returns the value of the key, if it has one. Takes no memory.
    #[inline(always)]
    pub fn get(&self, key: Key) -> Option<u64>
        ensures { result ≡ at key self.now.pairs }
    {
        self.worker.owner.table.value.get(key)
    }

    /// Returns the values of the keys, each at its key's place, as a get for each would. Takes no
    /// memory.
    #[inline]
    pub fn get_many<const N: usize>(&self, keys: [Key; N]) -> [Option<u64>; N]
        ensures { result ≡ map (λ key. at key self.now.pairs) keys.entry }
    {
        self.worker.owner.table.value.get_many(keys)
    }

    /// Returns whether the key has a value. Takes no memory.
    #[inline(always)]
    pub fn contains_key(&self, key: Key) -> bool
        ensures { IsTrue result ↔ IsSome (at key self.now.pairs) }
    {
        self.get(key).is_some()
    }

    /// Returns the pair with the least key, if there is any. Takes no memory.
    pub fn first(&self) -> Option<(Key, u64)>
        ensures { result ≡ first_entry self.now.pairs }
    {
        self.worker.owner.table.value.first()
    }

    /// Returns the pair with the greatest key, if there is any. Takes no memory.
    pub fn last(&self) -> Option<(Key, u64)>
        ensures { result ≡ last_entry self.now.pairs }
    {
        self.worker.owner.table.value.last()
    }

    /// Returns the pair with the least key at or above the key, if there is one. Takes no memory.
    pub fn next_at(&self, key: Key) -> Option<(Key, u64)>
        ensures { result ≡ first_from key self.now.pairs }
    {
        self.worker.owner.table.value.next_at(key)
    }

    /// Returns the pair with the greatest key at or below the key, if there is one. Takes no memory.
    pub fn previous_at(&self, key: Key) -> Option<(Key, u64)>
        ensures { result ≡ last_upto key self.now.pairs }
    {
        self.worker.owner.table.value.previous_at(key)
    }

    /// Returns the pairs with keys in the range, in the order of their keys, from either end. They
    /// are read from the map one by one. A range that runs backwards has no pairs. Takes no memory.
    pub fn range<R: RangeBounds<Key>>(&self, range: R) -> Pairs<'_, A>
        ensures { R.has_bounds range → result ≡ between (R.start_bound range) (R.end_bound range)
            self.now.pairs }
    {
        self.walk(
            start_fence(range.start_bound()),
            end_fence(range.end_bound()),
        )
    }

    /// Returns the pairs with keys from the low on and below the high.
    pub(crate) fn walk(&self, low: Fence, high: Fence) -> Pairs<'_, A>
        ensures { result ≡ within (end_of low) (end_of high) self.now.pairs }
    {
        let table = &self.worker.owner.table.value;
        Pairs {
            table,
            leaf: table.leaf_of(first_key(low)),
            lent: EntrySlice::empty(),
            next: low,
            high,
            back: None,
        }
    }

    /// Returns all pairs, in the order of their keys: see `range`. It knows how many are left.
    pub fn iter(&self) -> Iter<'_, A>
        ensures { result ≡ self.now.pairs }
    {
        // Reading the worker yields the law of its table.
        let _worker = &self.worker;
        Iter {
            pairs: self.walk(Fence::Key(0), Fence::Top),
            left: self.len(),
        }
    }

    /// Inserts the pair, unless the key has a value, which it then keeps and the reply has.
    pub fn put(&mut self, key: Key, value: u64) -> Result<Done<Put>, Fault>
        ensures puts { IfOk result (λ done.
            Puts key value (before_put done.reply) self.old.pairs self.new.pairs) }
        ensures at_rest { IsAtRest self.old.table key
            → IsOneAction key (wishes.Put value) self.old result self.new }
        ensures unchanged { OnErr result (self.new.pairs ≡ self.old.pairs) }
        ensures full { fault_reported result ≡ Some faults.TableFull → HasAllPages self.new }
        ensures pages { self.old.pages ≤ self.new.pages }
        ensures config { self.new.config ≡ self.old.config }
    {
        match self.change(key, Wished::Put(value)) {
            Ok(done) => Ok(Done {
                reply: put_of(done.receipt),
                fault: self.tend_changed(done),
            }),
            Err(Unperformed::StepByStep) => self.put_by_steps(key, value),
            Err(Unperformed::Denied(_)) => Err(Fault::NoMemory),
        }
    }

    /// Sets the key to the value. The reply has the old value, if there was one.
    pub fn set(&mut self, key: Key, value: u64) -> Result<Done<Set>, Fault>
        ensures sets { IfOk result (λ done.
            Sets key value (before_set done.reply) self.old.pairs self.new.pairs) }
        ensures at_rest { IsAtRest self.old.table key
            → IsOneAction key (wishes.Set value) self.old result self.new }
        ensures unchanged { OnErr result (self.new.pairs ≡ self.old.pairs) }
        ensures full { fault_reported result ≡ Some faults.TableFull → HasAllPages self.new }
        ensures pages { self.old.pages ≤ self.new.pages }
        ensures config { self.new.config ≡ self.old.config }
    {
        match self.change(key, Wished::Set(value)) {
            Ok(done) => Ok(Done {
                reply: Set::of(done.receipt),
                fault: self.tend_changed(done),
            }),
            Err(Unperformed::StepByStep) => self.set_by_steps(key, value),
            Err(Unperformed::Denied(_)) => Err(Fault::NoMemory),
        }
    }

    /// Deletes the key, if it has a value. The reply has that value.
    pub fn delete(&mut self, key: Key) -> Result<Done<Del>, Fault>
        ensures deletes { IfOk result (λ done.
            Deletes key (before_delete done.reply) self.old.pairs self.new.pairs) }
        ensures at_rest { IsAtRest self.old.table key
            → IsOneAction key wishes.Delete self.old result self.new }
        ensures unchanged { OnErr result (self.new.pairs ≡ self.old.pairs) }
        ensures full { fault_reported result ≡ Some faults.TableFull → HasAllPages self.new }
        ensures pages { self.old.pages ≤ self.new.pages }
        ensures config { self.new.config ≡ self.old.config }
    {
        match self.change(key, Wished::Delete) {
            Ok(done) => Ok(Done {
                reply: Del::of(done.receipt),
                fault: self.tend_changed(done),
            }),
            Err(Unperformed::StepByStep) => self.delete_by_steps(key),
            Err(Unperformed::Denied(_)) => Err(Fault::NoMemory),
        }
    }

    /// Deletes the keys from the low on and below the high, and returns how many it deleted. If a
    /// fault ends the call early, some of these keys are deleted, and no others.
    pub fn clear(&mut self, low: Key, high: Fence) -> Cleared
        ensures clears { Clears low (end_of high) result.removed (result.fault ≡ None)
            self.old.pairs self.new.pairs }
        ensures full { result.fault ≡ Some faults.TableFull → HasAllPages self.new }
        ensures pages { self.old.pages ≤ self.new.pages }
        ensures config { self.new.config ≡ self.old.config }
    {
        self.make_room();
        let cleared = self.clear_in_room(low, high);
        Cleared {
            removed: cleared.removed,
            fault: self.cause(cleared.fault),
        }
    }
}

/// Returns the initial page count of a map capped at this many pages. A number outside a map's
/// range stays outside a table's.
fn first_pages(most: u32) -> u32
    ensures { result ≡ first_pages most }
{
    if most <= MAX_PAGES {
        most.min(FIRST_PAGES)
    } else {
        0
    }
}

const FIRST_PAGES: u32 = 8;

impl<'m, A: Allocator + Copy> IntoIterator for &'m Map<A> {
    ghost use Rattle.std.specs.Prelude.{◌≡◌};

    type Item = (Key, u64);

    type IntoIter = Iter<'m, A>;

    ghost into_iter_gives = { λ map pairs. pairs ≡ map.now.pairs };

    fn into_iter(self) -> Iter<'m, A> {
        self.iter()
    }
}
