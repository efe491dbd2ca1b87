//! A closed forest of tables that came from elsewhere.

ghost use Rattle.std.specs.Prelude.{◌≡◌, ℕ, ◌≤◌, ◌↔◌, [], All, length, vec_capacity, IsOk, IfOk, IfErr, IfNone, IfSome, IsTrue};
ghost use Rattle.bw_keys.specs.Ranges.{end_of, key_count};
ghost use Rattle.bw_table.specs.Orders.{HasNoKeyWithin};
ghost use Rattle.bw_tree.specs.Trees.{IsTree};
ghost use Rattle.bw_forest.specs.Bounds.{AreBounds, ranges_of};
ghost use Rattle.bw_forest.specs.Fitting.{FitRanges, IsAlike, IsBadTables, IsFirstWithout, LiesInItsRange};
ghost use Rattle.bw_forest.specs.Forests.{AreAlike, HasPairsWithin, ranges_in, tables_of};
ghost use Rattle.bw_tree.specs.Ranges.{LiesIn};

use crate::bounds::Bounds;
use crate::closed::ClosedForest;
use crate::closed_tree::ClosedTree;
use crate::fault::BadTables;
use crate::given_back::Unclosed;
use bw_keys::{Config, Fence, Key, Range};
use bw_table::Table;
use std::alloc::{Allocator, Global};

impl<A: Allocator + Copy> ClosedForest<A> {
    /// Returns the closed forest of these tables: one for each range, in their order, with no pair out
    /// of it, all made by one configuration. The pairs stay where they are.
    ///
    /// Where it fails, the ranges and the tables come back as they were.
    pub fn of(
        machine: Global,
        bounds: Bounds,
        tables: Vec<Table<A>>,
    ) -> Result<ClosedForest<A>, Unclosed<A>>
        ensures bounds { IfOk result (λ forest. forest.bounds ≡ bounds) }
        ensures tables { IfOk result (λ forest. forest.tables ≡ tables.items) }
        ensures fine { IsOk result → FitRanges bounds tables.items }
        ensures fault { IfErr result (λ it. IsBadTables bounds tables.items it.fault) }
        ensures same_bounds { IfErr result (λ it. it.bounds ≡ bounds) }
        ensures same_tables { IfErr result (λ it. it.tables.items ≡ tables.items) }
    {
        if let Err(fault) = check(&bounds, tables.as_slice()) {
            return Err(Unclosed {
                fault,
                bounds,
                tables,
            });
        }
        let Ok(trees) = Vec::with_capacity(machine, tables.len()) else {
            return Err(Unclosed {
                fault: BadTables::NoMemory,
                bounds,
                tables,
            });
        };
        let trees = join(&bounds, tables, trees);
        Ok(ClosedForest::new(bounds, trees))
    }
}

/// Returns the first fault of the tables, want of memory apart.
fn check<A: Allocator + Copy>(bounds: &Bounds, tables: &[Table<A>]) -> Result<(), BadTables>
    ensures fine { IsOk result → FitRanges bounds.now tables.now }
    ensures fault { IfErr result (IsBadTables bounds.now tables.now) }
    ensures bounds { AreBounds bounds.now }
{
    if tables.len() != bounds.trees() as usize {
        return Err(BadTables::BadNumber);
    }
    if let Some(tree) = first_unlike(tables) {
        return Err(BadTables::OtherConfig(tree));
    }
    if let Some(tree) = first_outside(bounds, tables) {
        return Err(BadTables::PairOutside(tree));
    }
    Ok(())
}

/// Returns the number of the first table that was made by another configuration than table 0.
fn first_unlike<A: Allocator + Copy>(tables: &[Table<A>]) -> Option<usize>
    ensures none { IfNone result (AreAlike tables.now) }
    ensures first { IfSome result (IsFirstWithout (IsAlike tables.now)) }
{
    let Some(first) = tables.first() else {
        return None;
    };
    let made = first.config();
    for i in 0..tables.len() {
        if !is_same(tables[i].config(), made) {
            return Some(i);
        }
    }
    None
}

fn is_same(one: Config, other: Config) -> bool
    ensures { IsTrue result ↔ one ≡ other }
{
    one == other
}

/// Returns the number of the first table that has a pair out of its range.
fn first_outside<A: Allocator + Copy>(bounds: &Bounds, tables: &[Table<A>]) -> Option<usize>
    requires number { length tables.now ≡ length bounds.now }
    ensures none { IfNone result
        ((tree : ℕ) → LiesInItsRange bounds.now tables.now tree) }
    ensures first { IfSome result (IsFirstWithout (LiesInItsRange bounds.now tables.now)) }
{
    for i in 0..tables.len() {
        if !lies_in(&tables[i], bounds.range(i)) {
            return Some(i);
        }
    }
    None
}

/// Reports whether all pairs lie in the range, by a search at each end of it.
fn lies_in<A: Allocator + Copy>(table: &Table<A>, range: Range) -> bool
    ensures { IsTrue result ↔ LiesIn range table.now.slots }
{
    table.law();
    begins_from(table, range.low) && ends_before(table, range.high)
}

/// Reports whether no pair has a key below the low.
fn begins_from<A: Allocator + Copy>(table: &Table<A>, low: Key) -> bool
    ensures { IsTrue result ↔ HasNoKeyWithin table.now 0 low }
{
    let Some(last) = low.checked_sub(1) else {
        return true;
    };
    table.previous_at(last).is_none()
}

/// Reports whether no pair has a key at the end or past it.
fn ends_before<A: Allocator + Copy>(table: &Table<A>, end: Fence) -> bool
    ensures { IsTrue result ↔ HasNoKeyWithin table.now (end_of end) key_count }
{
    let Fence::Key(key) = end else {
        return true;
    };
    table.law();
    table.next_at(key).is_none()
}

/// Puts each table beside its range.
fn join<A: Allocator + Copy>(
    bounds: &Bounds,
    tables: Vec<Table<A>>,
    room: Vec<ClosedTree<A>>,
) -> Vec<ClosedTree<A>>
    requires fit { FitRanges bounds.now tables.items }
    requires empty { room.items ≡ [] }
    requires enough { length tables.items ≤ vec_capacity room }
    ensures tables { tables_of result.items ≡ tables.items }
    ensures ranges { ranges_in result.items ≡ ranges_of bounds.now }
    ensures each { All IsTree (tables_of result.items) }
    ensures within { All HasPairsWithin result.items }
{
    let mut trees = room;
    for table in tables {
        let range = bounds.range(trees.len());
        table.law();
        trees.push_reserved(ClosedTree::new(range, table));
    }
    trees
}
