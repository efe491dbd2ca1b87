//! The workers' shares of the book: amounts of two ledgers, which take no bytes. What a share
//! counts is known to contracts alone.

ghost use Rattle.std.specs.Prelude.{◌≡◌, ◌+◌, ◌*◌};
ghost use Rattle.bw_tree.specs.Shares.{ShareValue, share_code};

use std::marker::{Model, PhantomData};
use std::sync::ledger;
use std::sync::ledger::{Blank, Ledger};

/// Two new ledgers, of insertions and of removals, with a part for each tree and a part for each
/// worker at each tree. The types that stand for them name one tree, or one forest.
#[derive(Drop)]
pub struct Blanks {
    pub trees: u32,
    pub workers: u32,
    pub insertions: Blank,
    pub removals: Blank,
    ghost insertion_parts: { insertions.parts ≡ trees + workers * trees },
    ghost removal_parts: { removals.parts ≡ trees + workers * trees },
}

impl Blanks {
    /// Returns ledgers for a tree of `workers` workers. The tree's maker checks the number.
    pub fn new(workers: u32) -> Blanks
        ensures workers { result.workers ≡ workers }
        ensures alone { result.trees ≡ 1 }
    {
        Blanks::of_forest(1, workers)
    }

    /// Returns ledgers for a forest of `trees` trees and `workers` workers. The forest's maker checks
    /// the numbers.
    pub fn of_forest(trees: u32, workers: u32) -> Blanks
        ensures trees { result.trees ≡ trees }
        ensures workers { result.workers ≡ workers }
    {
        let parts = trees as u64 + workers as u64 * trees as u64;
        Blanks {
            trees,
            workers,
            insertions: Blank::new(parts),
            removals: Blank::new(parts),
        }
    }
}

/// The ledger that `L` stands for, with one more part than `L` says: the stock of a tree alone.
pub struct Stocked<L> {
    of: PhantomData<L>,
}

impl<L: Ledger> Ledger for Stocked<L> {
    ghost name = { L.name };

    ghost parts = { L.parts + 1 };
}

/// One worker's insertions and removals. Contracts see it as its part of the book, in which
/// modifications are nobody's.
///
/// Closing a tree takes the shares of all its workers, so a worker hands its share back however its
/// work ends. No share can be made anew: one that is dropped is missing from then on.
#[derive(Drop)]
pub struct Share<I: Ledger, D: Ledger> {
    pub(crate) insertions: ledger::Share<Stocked<I>>,
    pub(crate) removals: ledger::Share<Stocked<D>>,
}

impl<I: Ledger, D: Ledger> Model for Share<I, D> {
    ghost Value = { ShareValue };

    ghost coded = { share_code };

    ghost view = { λ s. record { inserted = s.insertions.amount; removed = s.removals.amount } };

    ghost invariant = { λ s. (s.insertions.parts ≡ 1) × (s.removals.parts ≡ 1) };
}
