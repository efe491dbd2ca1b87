//! The ledgers of a tree, or of a forest, whose trees are counted by one pair of ledgers. Each tree has
//! a stock of what it may still count, and each insertion and each removal moves one from there to the
//! share of the worker that did it.

ghost use Rattle.std.specs.Prelude.{◌≡◌, ◌+◌, ◌*◌, ◌<◌, ◌≤◌, ◌↔◌, All, length, IsOk, IfOk, OnOk, OnErr, ℕ};
ghost use Rattle.bw_tree.specs.Shares.{no_changes, shared_in, counted, sum_of, together, Opens, ShareValue, share_code};
ghost use Rattle.bw_tree.specs.Stocks.{Fits, fresh, most, counted_of, TotalsValue, counted_by, totals_code};

use crate::fault::MissingShare;
use crate::share::{Blanks, Share, Stocked};
use bw_delta::NoMemory;
use bw_step::{Book as TableBook, Receipt};
use std::alloc::Global;
use std::marker::Model;
use std::sync::ledger;
use std::sync::ledger::{Ledger, Total};

/// What one tree may still count. It lies under the tree's lock. Contracts see it as what
/// the tree counted.
#[derive(Drop)]
pub struct Stock<I: Ledger, D: Ledger> {
    insertions: ledger::Share<Stocked<I>>,
    removals: ledger::Share<Stocked<D>>,
}

impl<I: Ledger, D: Ledger> Model for Stock<I, D> {
    ghost Value = { ShareValue };

    ghost coded = { share_code };

    ghost view = { λ s. counted_of s.insertions.amount s.removals.amount };

    ghost invariant = { λ s. (s.insertions.parts ≡ 1) × (s.removals.parts ≡ 1)
        × (s.insertions.amount ≤ most) × (s.removals.amount ≤ most) };
}

impl<I: Ledger, D: Ledger> Stock<I, D> {
    /// Counts all that a table's book has in the tree and in the share, which have nothing yet.
    pub fn begin(&mut self, share: &mut Share<I, D>, book: TableBook)
        requires share { share.old ≡ no_changes }
        requires stock { self.old ≡ no_changes }
        ensures share { share.new ≡ shared_in book }
        ensures stock { self.new ≡ shared_in book }
    {
        self.insertions
            .transfer(&mut share.insertions, book.inserted);
        self.removals.transfer(&mut share.removals, book.removed);
    }

    /// Counts an insertion or a removal in the tree and in the worker's share.
    #[inline(always)]
    pub fn count(&mut self, share: &mut Share<I, D>, receipt: Receipt)
        requires fits { Fits (counted self.old receipt) }
        ensures share { share.new ≡ counted share.old receipt }
        ensures stock { self.new ≡ counted self.old receipt }
    {
        match receipt {
            Receipt::Inserted { .. } => self.insertions.transfer(&mut share.insertions, 1),
            Receipt::Deleted { .. } => self.removals.transfer(&mut share.removals, 1),
            Receipt::Modified { .. } | Receipt::Looked { .. } | Receipt::Shaped { .. } => {}
        }
    }
}

/// The ledgers while trees are at work: all stocks and all shares together have a fixed total. Contracts
/// see them as the numbers of the trees and the workers, how many stocks are back, and what those trees
/// counted.
#[derive(Drop)]
pub struct Totals<I: Ledger, D: Ledger> {
    trees: u32,
    workers: u32,
    insertions: Total<Stocked<I>>,
    removals: Total<Stocked<D>>,
    // what is left of the stocks that are back
    left_insertions: ledger::Share<Stocked<I>>,
    left_removals: ledger::Share<Stocked<D>>,
}

impl<I: Ledger, D: Ledger> Model for Totals<I, D> {
    ghost Value = { TotalsValue };

    ghost coded = { totals_code };

    ghost view = { λ t. record {
      trees = t.trees;
      workers = t.workers;
      back = t.left_insertions.parts;
      counted = counted_by t.left_insertions.parts
          t.left_insertions.amount t.left_removals.amount;
    } };

    ghost invariant = { λ t. (t.trees + t.workers * t.trees ≡ I.parts + 1)
        × (t.insertions.parts ≡ I.parts + 1) × (t.insertions.amount ≡ t.trees * most)
        × (t.removals.parts ≡ I.parts + 1) × (t.removals.amount ≡ t.trees * most)
        × (t.left_removals.parts ≡ t.left_insertions.parts)
        × (t.left_insertions.amount ≤ t.left_insertions.parts * most)
        × (t.left_removals.amount ≤ t.left_insertions.parts * most) };
}

/// Parts of both ledgers that have counted nothing. Contracts see how many they are.
#[derive(Drop)]
pub struct Parts<I: Ledger, D: Ledger> {
    insertions: ledger::Share<Stocked<I>>,
    removals: ledger::Share<Stocked<D>>,
}

impl<I: Ledger, D: Ledger> Model for Parts<I, D> {
    ghost Value = { ℕ };

    ghost view = { λ p. p.insertions.parts };

    ghost invariant = { λ p. (p.removals.parts ≡ p.insertions.parts)
        × (p.insertions.amount ≡ 0) × (p.removals.amount ≡ 0) };
}

impl<I: Ledger, D: Ledger> Parts<I, D> {
    /// Returns so many shares of nothing.
    fn shares(&mut self, machine: Global, count: u32) -> Result<Vec<Share<I, D>>, NoMemory>
        requires enough { count ≤ self.old }
        ensures rest { OnOk result (self.new + count ≡ self.old) }
        ensures count { IfOk result (λ shares. length shares.items ≡ count) }
        ensures none_changed { IfOk result (λ shares.
            All (λ share. share ≡ no_changes) shares.items) }
    {
        let mut shares = Vec::with_capacity(machine, count as usize)?;
        for _share in 0..count {
            shares.push_reserved(Share {
                insertions: self.insertions.split_off(1, 0),
                removals: self.removals.split_off(1, 0),
            });
        }
        Ok(shares)
    }

    /// Returns for each worker a share of nothing at each tree.
    pub fn lists(
        &mut self,
        machine: Global,
        workers: u32,
        trees: u32,
    ) -> Result<Vec<Vec<Share<I, D>>>, NoMemory>
        requires enough { workers * trees ≤ self.old }
        ensures count { IfOk result (λ lists. length lists.items ≡ workers) }
        ensures each { IfOk result (λ lists. All (λ its. length its.items ≡ trees) lists.items) }
        ensures none_changed { IfOk result (λ lists.
            All (λ its. All (λ share. share ≡ no_changes) its.items) lists.items) }
    {
        let mut lists = Vec::with_capacity(machine, workers as usize)?;
        for _worker in 0..workers {
            lists.push_reserved(self.shares(machine, trees)?);
        }
        Ok(lists)
    }
}

/// What trees begin with: a stock for each, and the parts that their workers' shares are made of.
#[derive(Drop)]
pub struct Endowment<I: Ledger, D: Ledger> {
    pub totals: Totals<I, D>,
    pub stocks: Vec<Stock<I, D>>,
    pub parts: Parts<I, D>,
}

impl<I: Ledger, D: Ledger> Endowment<I, D> {
    /// Opens the blank ledgers.
    pub fn open(machine: Global, blanks: Blanks) -> Result<Endowment<I, D>, NoMemory>
        requires insertions { Opens I.name I.parts blanks.insertions }
        requires removals { Opens D.name D.parts blanks.removals }
        ensures totals { IfOk result (λ made. made.totals ≡ fresh blanks.trees blanks.workers) }
        ensures stocks { IfOk result (λ made. length made.stocks.items ≡ blanks.trees) }
        ensures none_counted { IfOk result (λ made.
            All (λ stock. stock ≡ no_changes) made.stocks.items) }
        ensures parts { IfOk result (λ made. made.parts ≡ blanks.workers * blanks.trees) }
    {
        let (trees, workers) = (blanks.trees, blanks.workers);
        let (mut insertions, mut all_insertions) = blanks.insertions.open::<Stocked<I>>();
        let (mut removals, mut all_removals) = blanks.removals.open::<Stocked<D>>();
        let mut stocks = Vec::with_capacity(machine, trees as usize)?;
        for _tree in 0..trees {
            let mut to_insert = all_insertions.split_off(1, 0);
            insertions.add(&mut to_insert, u64::MAX);
            let mut to_remove = all_removals.split_off(1, 0);
            removals.add(&mut to_remove, u64::MAX);
            stocks.push_reserved(Stock {
                insertions: to_insert,
                removals: to_remove,
            });
        }
        let totals = Totals {
            trees,
            workers,
            insertions: insertions.close(),
            removals: removals.close(),
            left_insertions: all_insertions.empty(),
            left_removals: all_removals.empty(),
        };
        let parts = Parts {
            insertions: all_insertions,
            removals: all_removals,
        };
        Ok(Endowment {
            totals,
            stocks,
            parts,
        })
    }
}

/// Returns what a tree alone and its workers begin with.
pub(crate) fn open_one<I: Ledger, D: Ledger>(
    machine: Global,
    blanks: Blanks,
) -> Result<(Stock<I, D>, Totals<I, D>, Vec<Share<I, D>>), NoMemory>
    requires insertions { Opens I.name I.parts blanks.insertions }
    requires removals { Opens D.name D.parts blanks.removals }
    requires alone { blanks.trees ≡ 1 }
    ensures stock { IfOk result (λ made. made.0 ≡ no_changes) }
    ensures totals { IfOk result (λ made. made.1 ≡ fresh 1 I.parts) }
    ensures count { IfOk result (λ made. length made.2.items ≡ blanks.workers) }
    ensures shares { IfOk result (λ made. All (λ share. share ≡ no_changes) made.2.items) }
{
    let workers = blanks.workers;
    let mut made = Endowment::open(machine, blanks)?;
    let shares = made.parts.shares(machine, workers)?;
    let Some(stock) = made.stocks.pop() else {
        unreachable!()
    };
    Ok((stock, made.totals, shares))
}

impl<I: Ledger, D: Ledger> Totals<I, D> {
    /// Takes the stock of a tree back.
    pub fn take(&mut self, stock: Stock<I, D>)
        ensures { self.new ≡ record self.old {
          back = self.old.back + 1;
          counted = together self.old.counted stock;
        } }
    {
        self.left_insertions.merge(stock.insertions);
        self.left_removals.merge(stock.removals);
    }

    /// Closes the ledgers when all stocks are back: what the trees counted is what the shares have.
    /// Fails where a share is missing.
    pub fn close(self, shares: Vec<Share<I, D>>) -> Result<(), MissingShare>
        requires back { self.back ≡ self.trees }
        ensures sum { OnOk result (self.counted ≡ sum_of shares.items) }
        ensures all { IsOk result ↔ (length shares.items ≡ self.workers * self.trees) }
        ensures missing { OnErr result (length shares.items < self.workers * self.trees) }
    {
        let (mut insertions, mut removals) = (self.left_insertions, self.left_removals);
        let gathered = shares.len() as u64;
        gather(&mut insertions, &mut removals, shares);
        // A merge shows that the parts are within the ledger's.
        let none = insertions.empty();
        insertions.merge(none);
        if gathered != self.workers as u64 * self.trees as u64 {
            return Err(MissingShare);
        }
        self.insertions.audit(&mut insertions);
        self.removals.audit(&mut removals);
        Ok(())
    }
}

/// Adds what all shares have.
fn gather<I: Ledger, D: Ledger>(
    insertions: &mut ledger::Share<Stocked<I>>,
    removals: &mut ledger::Share<Stocked<D>>,
    shares: Vec<Share<I, D>>,
)
    ensures insertion_parts { insertions.new.parts ≡ insertions.old.parts + length shares.items }
    ensures removal_parts { removals.new.parts ≡ removals.old.parts + length shares.items }
    ensures inserted { insertions.new.amount
        ≡ insertions.old.amount + (sum_of shares.items).inserted }
    ensures removed { removals.new.amount ≡ removals.old.amount + (sum_of shares.items).removed }
{
    let mut shares = shares;
    'shares: while let Some(share) = shares.pop() {
        insertions.merge(share.insertions);
        removals.merge(share.removals);
    }
}
