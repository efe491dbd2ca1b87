//! The calls of a worker of a forest that go over several trees.

ghost use Rattle.std.specs.Prelude.{◌≡◌, ◌↔◌, ◌-◌, ◌<◌, ◌≤◌, ℕ, None, IsTrue, IfSome, IfErr, min};
ghost use Rattle.bw_forest.specs.Bounds.{IsTreeOf};
ghost use Rattle.bw_keys.specs.Ranges.{end_of, key_count};
ghost use Rattle.bw_tree.specs.Stocks.{most};
ghost use Rattle.nifforan_forest.specs.Answers.{HaveTogether, IsFirstAnswer, IsLastAnswer};
ghost use Rattle.nifforan_forest.specs.Clears.{Removes, SweepsKey, Together};
ghost use Rattle.nifforan_forest.specs.Faults.{EarnsInATree};
ghost use Rattle.nifforan_forest.specs.Reads.{WasThereInItsTree};
ghost use Rattle.nifforan_forest.specs.Scans.{EachSpends, Scans};

use crate::fences::{end_among_keys, lower};
use crate::hand::ForestHand;
use crate::scan::scan_tree;
use crate::worker::ForestWorker;
use bw_keys::{Fence, Key};
use bw_procedures::{Cleared, Fault};
use std::alloc::Global;

impl<'b, H: ForestHand> ForestWorker<'b, H> {
    /// Deletes the keys from the low on and below the high, as
    /// [`clear`](bw_procedures::Calls::clear) does, tree by tree in the order of their ranges, and
    /// returns how many it deleted, or 2^64 - 1 if it deleted more. Copies of leaves lie in the
    /// machine's memory. The first fault ends the call, and what was deleted by then stays deleted.
    /// The fault comes when one tree's `clear` would end with it, so each tree's part has the
    /// effort of a call.
    ///
    /// Without a fault, each key of the range was missing in a copy of its leaf, or was deleted since.
    pub fn clear(&mut self, machine: Global, low: Key, high: Fence) -> Cleared
        ensures removes { (count : ℕ)
            × Together (Removes H.seen H.follows H.range low (end_of high))
            self.old.hands.items self.new.hands.items count
            × (result.removed ≡ min count most) }
        ensures swept { result.fault ≡ None → (key : ℕ) → low ≤ key → key < end_of high
            → SweepsKey H.bounds H.seen H.follows H.shows key
            self.old.hands.items self.new.hands.items }
        ensures fault { IfSome result.fault (EarnsInATree H.bounds H.seen low (end_of high)
            self.old.hands.items self.new.hands.items) }
    {
        let mut removed = 0u64;
        let mut at = low;
        'trees: while high.is_above(at) {
            let tree = self.bounds.tree_of(at);
            let end = self.bounds.range(tree).high;
            let part = self.hands[tree].clear(machine, at, lower(high, end));
            removed = removed.saturating_add(part.removed);
            if part.fault.is_some() {
                return Cleared {
                    removed,
                    fault: part.fault,
                };
            }
            let Fence::Key(next) = end else {
                end_among_keys(high);
                return Cleared {
                    removed,
                    fault: None,
                };
            };
            at = next;
        }
        Cleared {
            removed,
            fault: None,
        }
    }

    /// Appends the pairs from the low on to the list, in the order of their keys, until it has
    /// appended `limit` pairs or there are no more. When a tree has no more, goes on in the next
    /// one. Each leaf's pairs were there at one moment; all together need never have been the map.
    /// Adds no receipts.
    ///
    /// # Errors
    ///
    /// [`Fault::Contended`] if the effort of a read is spent before a leaf is copied, or
    /// [`Fault::NoMemory`], each in one tree. The pairs up to there are on the list.
    pub fn scan(&mut self, low: Key, limit: usize, list: &mut Vec<(Key, u64)>) -> Result<(), Fault>
        ensures scans { Scans (λ key found. WasThereInItsTree H.bounds H.follows H.shows key found
            self.old.hands.items self.new.hands.items)
            low key_count limit result list.old.items list.new.items }
        ensures spends { EachSpends H.seen H.follows self.old.hands.items self.new.hands.items }
        ensures fault { IfErr result (EarnsInATree H.bounds H.seen low key_count
            self.old.hands.items self.new.hands.items) }
    {
        let mut left = limit;
        let mut at = low;
        'trees: while left > 0 {
            let tree = self.bounds.tree_of(at);
            let end = self.bounds.range(tree).high;
            end_among_keys(end);
            left -= scan_tree(&mut self.hands[tree], at, end, left, list)?;
            let Fence::Key(next) = end else {
                return Ok(());
            };
            at = next;
        }
        Ok(())
    }

    /// Returns the pair with the least key at or above the key, if there is one. Each tree that is
    /// asked answers in one hold of its lock; if a tree has none, the next one is asked.
    pub fn next_at(&self, key: Key) -> Option<(Key, u64)>
        ensures at_or_past { IfSome result (λ pair. key ≤ pair.0) }
        ensures next { (first : ℕ) × IsTreeOf H.bounds key first
            × IsFirstAnswer (λ hand pair. H.comes_next hand key pair)
            self.now.hands.items first result }
    {
        let first = self.bounds.tree_of(key);
        for tree in first..self.hands.len() {
            if let Some(pair) = self.hands[tree].next_at(key) {
                return Some(pair);
            }
        }
        None
    }

    /// Returns the pair with the greatest key at or below the key, if there is one. Each tree that
    /// is asked answers in one hold of its lock; if a tree has none, the one before it is asked.
    pub fn previous_at(&self, key: Key) -> Option<(Key, u64)>
        ensures at_or_before { IfSome result (λ pair. pair.0 ≤ key) }
        ensures previous { (last : ℕ) × IsTreeOf H.bounds key last
            × IsLastAnswer (λ hand pair. H.comes_before hand key pair)
            self.now.hands.items last result }
    {
        let mut end = self.bounds.tree_of(key) + 1;
        'trees: while end > 0 {
            end -= 1;
            if let Some(pair) = self.hands[end].previous_at(key) {
                return Some(pair);
            }
        }
        None
    }

    /// Returns the pair with the least key, as [`next_at`](ForestWorker::next_at) finds it.
    pub fn first(&self) -> Option<(Key, u64)>
        ensures { (first : ℕ) × IsTreeOf H.bounds 0 first
            × IsFirstAnswer (λ hand pair. H.comes_next hand 0 pair)
            self.now.hands.items first result }
    {
        self.next_at(0)
    }

    /// Returns the pair with the greatest key, as [`previous_at`](ForestWorker::previous_at) finds it.
    pub fn last(&self) -> Option<(Key, u64)>
        ensures { (last : ℕ) × IsTreeOf H.bounds (key_count - 1) last
            × IsLastAnswer (λ hand pair. H.comes_before hand (key_count - 1) pair)
            self.now.hands.items last result }
    {
        self.previous_at(Key::MAX)
    }

    /// Returns how many pairs the trees have together, or 2^64 - 1 if it is more. Each tree's count is
    /// of a moment of its own, in one hold of its lock, so the sum need never have been that of the
    /// map while others change it.
    pub fn len(&self) -> u64
        ensures { (all : ℕ) × HaveTogether H.has_pairs self.now.hands.items all
            × (result ≡ min all most) }
    {
        let mut all = 0u64;
        for tree in 0..self.hands.len() {
            all = all.saturating_add(self.hands[tree].len());
        }
        all
    }

    /// Returns whether no tree has pairs, as [`len`](ForestWorker::len) finds it.
    pub fn is_empty(&self) -> bool
        ensures { (all : ℕ) × HaveTogether H.has_pairs self.now.hands.items all
            × (IsTrue result ↔ all ≡ 0) }
    {
        self.len() == 0
    }
}
