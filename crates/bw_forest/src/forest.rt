//! The trees of a forest, by ranges of keys, and one exact count over all of them.

ghost use Rattle.std.specs.Prelude.{◌≡◌, ◌≢◌, ◌+◌, ◌-◌, ◌*◌, ◌≤◌, ◌↔◌, None, [], All, length, map, IsOk, IfOk, IfErr, IsTrue, vec_capacity};
ghost use Rattle.bw_keys.specs.Limits.{first_bad_field};
ghost use Rattle.bw_tree.specs.Shares.{no_changes, sum_of};
ghost use Rattle.bw_tree.specs.Stocks.{OpensForest, fresh};
ghost use Rattle.bw_tree.specs.Trees.{IsTree, IsNewFault, MayBeMade};
ghost use Rattle.bw_forest.specs.Bounds.{AreBounds, ranges_of};
ghost use Rattle.bw_forest.specs.Forests.{AreAlike, ComesApart, HasForestMap, HasPairsWithin, IsClosedForest, books_of, config_of, pairs_of, ranges_in, tables_of};
ghost use Rattle.bw_forest.specs.declared.fault.ForestFault.TheVariants.{MissingShare, OtherRange};

use crate::bounds::Bounds;
use crate::closed::ClosedForest;
use crate::closed_tree::ClosedTree;
use crate::fault::ForestFault;
use crate::given_back::{NotClosed, Unopened};
use bw_delta::NoMemory;
use bw_keys::{Config, Range};
use bw_table::Table;
use bw_tree::{Blanks, Endowment, ForestTree, MadeBy, NewFault, Share, Stock, Totals, Tree, check};
use std::alloc::{Allocator, Global};
use std::sync::Wait;
use std::sync::ledger::Ledger;

/// Trees by ranges of keys, counted by one pair of ledgers.
#[derive(Drop)]
pub struct Forest<R: Wait + Drop, A: Allocator + Copy, I: MadeBy, D: Ledger> {
    bounds: Bounds,
    trees: Vec<ForestTree<R, A, I, D>>,
    totals: Totals<I, D>,
    // taken at the start, so that no closing fails for want of memory
    room: Vec<ClosedTree<A>>,
    ghost each: { length trees.items ≡ length bounds },
    ghost placed: { map (λ tree. tree.range) trees.items ≡ ranges_of bounds },
    ghost counted: { totals ≡ fresh (length trees.items) totals.workers },
    ghost enough: { (length room.items ≡ 0) × (length trees.items ≤ vec_capacity room) },
}

impl<R: Wait + Drop + Copy, A: Allocator + Copy, I: MadeBy, D: Ledger> Forest<R, A, I, D> {
    /// Returns a forest with a tree without pairs for each range, and for each worker, 1 to
    /// `MAX_WORKERS`, a list with a share of nothing at each tree. The chains lie in `alloc`, all else
    /// in the machine's memory.
    pub fn new(
        rt: R,
        machine: Global,
        alloc: A,
        config: Config,
        bounds: Bounds,
        blanks: Blanks,
    ) -> Result<(Forest<R, A, I, D>, Vec<Vec<Share<I, D>>>), NewFault>
        requires ledgers { OpensForest I.Ledger I.config D.Ledger config blanks }
        requires trees { blanks.trees ≡ length bounds }
        ensures bounds { IfOk result (λ made. made.0.bounds ≡ bounds) }
        ensures all { IfOk result (λ made. made.0.totals.workers ≡ blanks.workers) }
        ensures workers { IfOk result (λ made. length made.1.items ≡ blanks.workers) }
        ensures each { IfOk result (λ made.
            All (λ its. length its.items ≡ length bounds) made.1.items) }
        ensures shares { IfOk result (λ made.
            All (λ its. All (λ share. share ≡ no_changes) its.items) made.1.items) }
        ensures fine { IsOk result → MayBeMade config blanks.workers }
        ensures fault { IfErr result (IsNewFault config blanks.workers) }
    {
        check(&config, blanks.workers)?;
        let (number, workers) = (blanks.trees, blanks.workers);
        let Ok(mut made) = Endowment::open(machine, blanks) else {
            return Err(NewFault::NoMemory);
        };
        let (Ok(room), Ok(shares), Ok(trees)) = (
            Vec::with_capacity(machine, number as usize),
            made.parts.lists(machine, workers, number),
            plant(rt, machine, alloc, config, &bounds, made.stocks),
        ) else {
            return Err(NewFault::NoMemory);
        };
        let forest = Forest {
            bounds,
            trees,
            totals: made.totals,
            room,
        };
        Ok((forest, shares))
    }

    /// Returns a forest with the closed one's ranges and pairs, for each worker, 1 to `MAX_WORKERS`, a
    /// list with a share of nothing at each tree, and the opening shares, which are no worker's: at
    /// each tree, all that its table's book has already. The blank ledgers are those of one worker more
    /// than there are, for the opening shares, which [`close`](Forest::close) wants too.
    ///
    /// Where it fails, the closed forest comes back as it was.
    pub fn from_closed(
        rt: R,
        machine: Global,
        forest: ClosedForest<A>,
        blanks: Blanks,
    ) -> Result<(Forest<R, A, I, D>, Vec<Vec<Share<I, D>>>, Vec<Share<I, D>>), Unopened<A>>
        requires ledgers { OpensForest I.Ledger I.config D.Ledger (config_of forest.tables) blanks }
        requires trees { blanks.trees ≡ length forest.bounds }
        ensures bounds { IfOk result (λ made. made.0.bounds ≡ forest.bounds) }
        ensures all { IfOk result (λ made. made.0.totals.workers ≡ blanks.workers) }
        ensures workers { IfOk result (λ made. length made.1.items + 1 ≡ blanks.workers) }
        ensures each { IfOk result (λ made.
            All (λ its. length its.items ≡ length forest.bounds) made.1.items) }
        ensures shares { IfOk result (λ made.
            All (λ its. All (λ share. share ≡ no_changes) its.items) made.1.items) }
        ensures at_each { IfOk result (λ made. length made.2.items ≡ length forest.bounds) }
        ensures opening { IfOk result (λ made. made.2.items ≡ books_of forest.tables) }
        ensures there { IfOk result (λ made. pairs_of forest.tables
            + (sum_of made.2.items).removed ≡ (sum_of made.2.items).inserted) }
        ensures fine { IsOk result
            → MayBeMade (config_of forest.tables) (blanks.workers - 1) }
        ensures fault { IfErr result (λ it.
            IsNewFault (config_of forest.tables) (blanks.workers - 1) it.fault) }
        ensures back { IfErr result (λ it. it.forest ≡ forest) }
    {
        let config = forest.config();
        if let Err(fault) = check(&config, blanks.workers.saturating_sub(1)) {
            return Err(Unopened { fault, forest });
        }
        let (number, workers) = (blanks.trees, blanks.workers);
        let (Ok(room), Ok(trees), Ok(opened), Ok(mut made)) = (
            Vec::with_capacity(machine, number as usize),
            Vec::with_capacity(machine, number as usize),
            Vec::with_capacity(machine, number as usize),
            Endowment::open(machine, blanks),
        ) else {
            return Err(Unopened {
                fault: NewFault::NoMemory,
                forest,
            });
        };
        let Ok(mut shares) = made.parts.lists(machine, workers, number) else {
            return Err(Unopened {
                fault: NewFault::NoMemory,
                forest,
            });
        };
        let Some(opening) = shares.pop() else {
            unreachable!()
        };
        let (bounds, closed) = forest.into_parts();
        let (trees, opening) = replant(rt, closed, made.stocks, opening, trees, opened);
        let forest = Forest {
            bounds,
            trees,
            totals: made.totals,
            room,
        };
        Ok((forest, shares, opening))
    }
}

/// Makes a tree without pairs for each range, with a stock of its own.
fn plant<R: Wait + Drop + Copy, A: Allocator + Copy, I: MadeBy, D: Ledger>(
    rt: R,
    machine: Global,
    alloc: A,
    config: Config,
    bounds: &Bounds,
    stocks: Vec<Stock<I, D>>,
) -> Result<Vec<ForestTree<R, A, I, D>>, NoMemory>
    requires made { I.config ≡ config }
    requires fine { first_bad_field config ≡ None }
    requires stocks { length stocks.items ≡ length bounds.now }
    requires none { All (λ stock. stock ≡ no_changes) stocks.items }
    ensures count { IfOk result (λ trees. length trees.items ≡ length bounds.now) }
    ensures placed { IfOk result
        (λ trees. map (λ tree. tree.range) trees.items ≡ ranges_of bounds.now) }
{
    let mut stocks = stocks;
    let mut trees = Vec::with_capacity(machine, stocks.len())?;
    for i in 0..stocks.len() {
        let Some(stock) = stocks.pop() else {
            unreachable!()
        };
        let Ok(table) = Table::new(machine, alloc, config) else {
            return Err(NoMemory);
        };
        trees.push_reserved(Tree::in_forest(rt, bounds.range(i), table, stock));
    }
    Ok(trees)
}

/// Puts each closed tree under a lock again, with a stock that counted what its table's book has, as
/// its opening share did.
fn replant<R: Wait + Drop + Copy, A: Allocator + Copy, I: MadeBy, D: Ledger>(
    rt: R,
    closed: Vec<ClosedTree<A>>,
    stocks: Vec<Stock<I, D>>,
    shares: Vec<Share<I, D>>,
    trees: Vec<ForestTree<R, A, I, D>>,
    opening: Vec<Share<I, D>>,
) -> (Vec<ForestTree<R, A, I, D>>, Vec<Share<I, D>>)
    requires alike { All (λ table. table.config ≡ I.config) (tables_of closed.items) }
    requires stocks { length stocks.items ≡ length closed.items }
    requires none_counted { All (λ stock. stock ≡ no_changes) stocks.items }
    requires shares { length shares.items ≡ length closed.items }
    requires none_changed { All (λ share. share ≡ no_changes) shares.items }
    requires empty { (trees.items ≡ []) × (opening.items ≡ []) }
    requires enough { (length closed.items ≤ vec_capacity trees)
        × (length closed.items ≤ vec_capacity opening) }
    ensures count { length result.0.items ≡ length closed.items }
    ensures ranges { map (λ tree. tree.range) result.0.items ≡ ranges_in closed.items }
    ensures at_each { length result.1.items ≡ length closed.items }
    ensures opening { result.1.items ≡ books_of (tables_of closed.items) }
{
    let (mut stocks, mut shares, mut trees, mut opening) = (stocks, shares, trees, opening);
    for tree in closed {
        let Some(mut stock) = stocks.pop() else {
            unreachable!()
        };
        let Some(mut share) = shares.pop() else {
            unreachable!()
        };
        let range = tree.range();
        let table = tree.into_table();
        stock.begin(&mut share, table.book());
        opening.push_reserved(share);
        trees.push_reserved(Tree::in_forest(rt, range, table, stock));
    }
    (trees, opening)
}

impl<R: Wait + Drop, A: Allocator + Copy, I: MadeBy, D: Ledger> Forest<R, A, I, D> {
    /// Returns the ranges of the trees.
    #[inline(always)]
    pub fn bounds(&self) -> &Bounds
        ensures { result.now ≡ self.now.bounds }
    {
        &self.bounds
    }

    /// Returns the trees, in the order of their ranges.
    #[inline(always)]
    pub fn trees(&self) -> &[ForestTree<R, A, I, D>]
        ensures each { length result.now ≡ length self.now.bounds }
        ensures placed { map (λ tree. tree.range) result.now ≡ ranges_of self.now.bounds }
    {
        self.trees.as_slice()
    }

    /// Returns the trees' tables with their ranges, and asks for no share. So nothing ties their books
    /// to the shares. It takes no memory.
    ///
    /// # Errors
    ///
    /// Fails only with [`ForestFault::OtherRange`], and gives the ranges and the trees back.
    pub fn into_closed(self) -> Result<ClosedForest<A>, NotClosed<A>>
        ensures bounds { IfOk result (λ closed. closed.bounds ≡ self.bounds) }
        ensures config { IfOk result (λ closed. config_of closed.tables ≡ I.config) }
        ensures fault { IfErr result (λ it. it.fault ≡ OtherRange) }
        ensures back { IfErr result (λ it.
            ComesApart self.bounds I.config it.bounds it.trees.items) }
    {
        let mut totals = self.totals;
        closed(self.bounds, fell(self.trees, &mut totals, self.room))
    }

    /// Returns the trees' tables with their ranges. Their books together are the sum of the shares, of
    /// all workers at all trees. It takes no memory.
    ///
    /// # Errors
    ///
    /// Fails with [`ForestFault::MissingShare`] where a share is missing, or as
    /// [`into_closed`](Forest::into_closed) does, and gives the ranges and the trees back.
    pub fn close(self, shares: Vec<Share<I, D>>) -> Result<ClosedForest<A>, NotClosed<A>>
        ensures bounds { IfOk result (λ closed. closed.bounds ≡ self.bounds) }
        ensures closed { IfOk result (IsClosedForest I.config shares.items) }
        ensures whole { IsOk result
            → length shares.items ≡ self.totals.workers * length self.bounds }
        ensures missing { IfErr result (λ it. (it.fault ≡ MissingShare)
            ↔ (length shares.items ≢ self.totals.workers * length self.bounds)) }
        ensures back { IfErr result (λ it.
            ComesApart self.bounds I.config it.bounds it.trees.items) }
    {
        let mut totals = self.totals;
        let trees = fell(self.trees, &mut totals, self.room);
        if totals.close(shares).is_err() {
            return Err(NotClosed {
                fault: ForestFault::MissingShare,
                bounds: self.bounds,
                trees,
            });
        }
        closed(self.bounds, trees)
    }
}

/// Returns the closed forest of these trees, or gives them back if one has another range.
fn closed<A: Allocator + Copy>(
    bounds: Bounds,
    trees: Vec<ClosedTree<A>>,
) -> Result<ClosedForest<A>, NotClosed<A>>
    requires count { length trees.items ≡ length bounds }
    requires trees { All IsTree (tables_of trees.items) }
    requires within { All HasPairsWithin trees.items }
    requires alike { AreAlike (tables_of trees.items) }
    ensures bounds { IfOk result (λ closed. closed.bounds ≡ bounds) }
    ensures tables { IfOk result (λ closed. closed.tables ≡ tables_of trees.items) }
    ensures map { IfOk result (λ closed. HasForestMap closed.tables) }
    ensures some { AreBounds bounds }
    ensures fault { IfErr result (λ it. it.fault ≡ OtherRange) }
    ensures back { IfErr result (λ it. (it.bounds ≡ bounds) × (it.trees.items ≡ trees.items)) }
{
    if !have_ranges(trees.as_slice(), &bounds) {
        return Err(NotClosed {
            fault: ForestFault::OtherRange,
            bounds,
            trees,
        });
    }
    Ok(ClosedForest::new(bounds, trees))
}

/// Takes each tree out of its lock, and its stock back.
fn fell<R: Wait + Drop, A: Allocator + Copy, I: MadeBy, D: Ledger>(
    trees: Vec<ForestTree<R, A, I, D>>,
    totals: &mut Totals<I, D>,
    room: Vec<ClosedTree<A>>,
) -> Vec<ClosedTree<A>>
    requires none { totals.old ≡ fresh (length trees.items) totals.old.workers }
    requires enough { (length room.items ≡ 0) × (length trees.items ≤ vec_capacity room) }
    ensures trees { All IsTree (tables_of result.items) }
    ensures config { All (λ table. table.config ≡ I.config) (tables_of result.items) }
    ensures alike { AreAlike (tables_of result.items) }
    ensures within { All HasPairsWithin result.items }
    ensures count { length result.items ≡ length trees.items }
    ensures back { totals.new ≡ record totals.old {
      back = totals.old.trees;
      counted = sum_of (books_of (tables_of result.items));
    } }
{
    let mut felled = room;
    for tree in trees {
        let (range, table, stock) = tree.apart();
        totals.take(stock);
        felled.push_reserved(ClosedTree::new(range, table));
    }
    felled
}

/// Reports whether the trees have the ranges, one each.
fn have_ranges<A: Allocator + Copy>(trees: &[ClosedTree<A>], bounds: &Bounds) -> bool
    requires each { length trees.now ≡ length bounds.now }
    ensures ranges { IsTrue result → ranges_in trees.now ≡ ranges_of bounds.now }
    ensures bounds { AreBounds bounds.now }
{
    for i in 0..bounds.trees() as usize {
        if !is_same(trees[i].range(), bounds.range(i)) {
            return false;
        }
    }
    true
}

fn is_same(one: Range, other: Range) -> bool
    ensures { IsTrue result → one ≡ other }
{
    one == other
}
