//! A forest that was closed: tables by ranges of keys, and one map over them.

ghost use Rattle.std.specs.Prelude.{◌≡◌, All, length, map, min, IfOk};
ghost use Rattle.bw_tree.specs.Stocks.{most};
ghost use Rattle.bw_tree.specs.Trees.{IsTree};
ghost use Rattle.bw_forest.specs.Bounds.{ranges_of};
ghost use Rattle.bw_forest.specs.Forests.{HasForestMap, IsForest, IsForestMap, IsForestValueAt, AreAlike, config_of, pairs_of, ranges_in, tables_of, ForestValue, forest_code};

use crate::bounds::Bounds;
use crate::closed_tree::ClosedTree;
use bw_delta::NoMemory;
use bw_keys::{Config, Fence, Key};
use std::alloc::{Allocator, Global};
use std::marker::Model;

/// The trees of a forest that was closed, in the order of their ranges. Contracts see it as where the
/// ranges begin, and the trees' tables.
#[derive(Drop)]
pub struct ClosedForest<A: Allocator + Copy> {
    bounds: Bounds,
    trees: Vec<ClosedTree<A>>,
}

impl<A: Allocator + Copy> Model for ClosedForest<A> {
    ghost Value = { ForestValue };

    ghost coded = { forest_code };

    ghost view = { λ f. record { bounds = f.bounds; tables = tables_of f.trees.items } };

    ghost invariant = { λ f. IsForest f.bounds f.trees.items };
}

impl<A: Allocator + Copy> ClosedForest<A> {
    pub(crate) fn new(bounds: Bounds, trees: Vec<ClosedTree<A>>) -> ClosedForest<A>
        requires forest { IsForest bounds trees.items }
        ensures bounds { result.bounds ≡ bounds }
        ensures tables { result.tables ≡ tables_of trees.items }
        ensures map { HasForestMap result.tables }
    {
        ClosedForest { bounds, trees }
    }

    /// Returns the ranges of the trees.
    pub fn bounds(&self) -> &Bounds
        ensures { result.now ≡ self.now.bounds }
    {
        &self.bounds
    }

    /// Returns the configuration that all trees were made by.
    pub fn config(&self) -> Config
        ensures first { result ≡ config_of self.now.tables }
        ensures all { AreAlike self.now.tables }
    {
        self.trees[0].table().config()
    }

    /// Returns the trees, in the order of their ranges.
    pub fn trees(&self) -> &[ClosedTree<A>]
        ensures tables { tables_of result.now ≡ self.now.tables }
        ensures ranges { ranges_in result.now ≡ ranges_of self.now.bounds }
        ensures trees { All IsTree self.now.tables }
    {
        self.trees.as_slice()
    }

    /// Returns the value that the forest's map has at the key, if it has one. It takes no memory.
    pub fn get(&self, key: Key) -> Option<u64>
        ensures { IsForestValueAt self.now.tables key result }
    {
        self.trees[self.bounds.tree_of(key)].table().get(key)
    }

    /// Returns how many pairs the forest's map has, or 2^64 - 1 if it has more.
    pub fn len(&self) -> u64
        ensures { result ≡ min (pairs_of self.now.tables) most }
    {
        let mut all = 0u64;
        for i in 0..self.trees.len() {
            let book = self.trees[i].table().book();
            all = all.saturating_add(book.inserted - book.removed);
        }
        all
    }

    /// Returns the pairs of the forest's map, in the order of their keys: those of the first tree,
    /// those of the second, and so on.
    pub fn pairs(&self, machine: Global) -> Result<Vec<(Key, u64)>, NoMemory>
        ensures { IfOk result (λ pairs. IsForestMap self.now.tables pairs.items) }
    {
        let mut all = Vec::new(machine);
        let mut own = Vec::new(machine);
        for i in 0..self.trees.len() {
            let table = self.trees[i].table();
            let book = table.book();
            let count = (book.inserted - book.removed) as usize;
            table.list_range(0, Fence::Top, count, &mut own)?;
            all.extend_from_slice(own.as_slice())?;
        }
        Ok(all)
    }

    /// Returns the ranges and the trees.
    pub fn into_parts(self) -> (Bounds, Vec<ClosedTree<A>>)
        ensures bounds { result.0 ≡ self.bounds }
        ensures tables { tables_of result.1.items ≡ self.tables }
        ensures ranges { ranges_in result.1.items ≡ ranges_of self.bounds }
        ensures count { length result.1.items ≡ length self.bounds }
        ensures trees { All IsTree self.tables }
        ensures alike { AreAlike self.tables }
    {
        let ClosedForest { bounds, trees } = self;
        (bounds, trees)
    }
}
