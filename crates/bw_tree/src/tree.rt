//! The mutex round a plot.

ghost use Rattle.std.specs.Prelude.{◌≡◌, ◌+◌, ◌-◌, ◌<◌, ◌↔◌, IsOk, IfOk, IfErr, OnErr, All, length};
ghost use Rattle.bw_step.specs.ProposalView.{proposal_of};
ghost use Rattle.bw_tree.specs.Ranges.{LiesIn};
ghost use Rattle.bw_tree.specs.Shares.{no_changes, shared_in, CountsIn};
ghost use Rattle.bw_step.specs.Steps.{IsReceiptOf, IsRefusal};
ghost use Rattle.bw_tree.specs.Trees.{IsTree, IsClosed, OpensFor, IsNewFault, MayBeMade};

use crate::booked::Booked;
use crate::fault::{MissingShare, NewFault, Unshared};
use crate::keys::{AnyKey, Keys};
use crate::made_by::MadeBy;
use crate::ordered::Ordered;
use crate::plot::Plot;
use crate::share::{Blanks, Share};
use crate::shared::Shared;
use crate::stock::Stock;
use bw_delta::Chain;
use bw_keys::{Config, Fence, Key, Pid, Range, Version};
use bw_step::{
    Action, CopyFault, Denied, Look, Next, Performed, Place, Receipt, Step, Unperformed, View,
};
use bw_table::Table;
use crossbeam_utils::CachePadded;
use std::alloc::{Allocator, Global};
use std::sync::ledger::Ledger;
use std::sync::{Mutex, Wait};

/// A booked table under its lock, alone or as a tree of a forest. Whoever takes the lock finds the
/// table lawful, its book the sum of the shares, and its pairs among the keys that it takes, whatever
/// steps others proposed. The runtime value is kept with the lock, so that code over any shared tree
/// needs none.
#[derive(Drop)]
pub struct Tree<R: Wait + Drop, A: Allocator + Copy, I: MadeBy, D: Ledger, K: Keys = AnyKey> {
    rt: R,
    config: Config,
    // outside the lock, where a forest says which range each of its trees is for
    range: K,
    // padded, so that the lock of one tree and the book of the next aren't on one cache line
    plot: CachePadded<Mutex<Plot<A, I, D, K>>>,
}

/// A tree of a forest, which takes the keys of a range.
pub type ForestTree<R, A, I, D> = Tree<R, A, I, D, Range>;

impl<R: Wait + Drop, A: Allocator + Copy, I: MadeBy, D: Ledger> Tree<R, A, I, D> {
    /// Returns a tree without pairs, and the workers' shares, as `Booked::new` makes them.
    pub fn new(
        rt: R,
        machine: Global,
        alloc: A,
        config: Config,
        blanks: Blanks,
    ) -> Result<(Tree<R, A, I, D>, Vec<Share<I, D>>), NewFault>
        requires ledgers { OpensFor I.Ledger I.config D.Ledger config blanks }
        ensures config { IfOk result (λ made. made.0.config ≡ config) }
        ensures count { IfOk result (λ made. length made.1.items ≡ blanks.workers) }
        ensures shares { IfOk result (λ made. All (λ share. share ≡ no_changes) made.1.items) }
        ensures fine { IsOk result → MayBeMade config blanks.workers }
        ensures fault { IfErr result (IsNewFault config blanks.workers) }
    {
        let (booked, shares) = Booked::new(machine, alloc, config, blanks)?;
        booked.table();
        Ok((Tree::over(rt, config, AnyKey, booked), shares))
    }

    /// Returns a tree with the table's pairs, the workers' shares, and the opening share, as
    /// `Booked::from_table` makes them.
    pub fn from_table(
        rt: R,
        machine: Global,
        table: Table<A>,
        blanks: Blanks,
    ) -> Result<(Tree<R, A, I, D>, Vec<Share<I, D>>, Share<I, D>), Unshared<A>>
        requires ledgers { OpensFor I.Ledger I.config D.Ledger table.config blanks }
        ensures config { IfOk result (λ made. made.0.config ≡ table.config) }
        ensures count { IfOk result (λ made. length made.1.items + 1 ≡ blanks.workers) }
        ensures shares { IfOk result (λ made. All (λ share. share ≡ no_changes) made.1.items) }
        ensures opening { IfOk result (λ made. made.2 ≡ shared_in table.book) }
        ensures fine { IsOk result → MayBeMade table.config (blanks.workers - 1) }
        ensures fault { IfErr result (λ unshared.
            IsNewFault table.config (blanks.workers - 1) unshared.fault) }
        ensures back { IfErr result (λ unshared. unshared.table ≡ table) }
    {
        let config = table.config();
        let (booked, shares, opening) = Booked::from_table(machine, table, blanks)?;
        booked.table();
        Ok((Tree::over(rt, config, AnyKey, booked), shares, opening))
    }

    /// Returns the table, and asks for no share, as `Booked::into_table` does.
    pub fn into_table(self) -> Table<A>
        ensures config { result.config ≡ I.config }
        ensures tree { IsTree result }
    {
        let Plot { booked, .. } = self.plot.into_inner().into_inner();
        booked.into_table()
    }

    /// Returns the table, as `Booked::close` does. Where a worker dropped its share, as by an early
    /// `?`, it fails with [`MissingShare`], and all pairs are lost. So have each worker hand its
    /// share back beside its error, or take the table by [`into_table`](Tree::into_table).
    pub fn close(self, shares: Vec<Share<I, D>>) -> Result<Table<A>, MissingShare>
        ensures closed { IfOk result (IsClosed I.config shares.items) }
        ensures all { IsOk result ↔ (length shares.items ≡ I.parts) }
        ensures missing { OnErr result (length shares.items < I.parts) }
    {
        let Plot { booked, .. } = self.plot.into_inner().into_inner();
        booked.close(shares)
    }
}

impl<R: Wait + Drop, A: Allocator + Copy, I: MadeBy, D: Ledger> ForestTree<R, A, I, D> {
    /// Puts a table, the stock that counted what its book has, and its range under a lock.
    pub fn in_forest(
        rt: R,
        range: Range,
        table: Table<A>,
        stock: Stock<I, D>,
    ) -> ForestTree<R, A, I, D>
        requires made { table.config ≡ I.config }
        requires stock { stock ≡ shared_in table.book }
        requires within { LiesIn range table.slots }
        ensures config { result.config ≡ I.config }
        ensures range { result.range ≡ range }
    {
        let config = table.config();
        Tree::over(rt, config, range, Booked::over(table, stock, None))
    }

    /// Takes the tree out of its lock, and its table from the stock, which counted what the table's
    /// book has.
    pub fn apart(self) -> (Range, Table<A>, Stock<I, D>)
        ensures config { result.1.config ≡ I.config }
        ensures tree { IsTree result.1 }
        ensures within { LiesIn result.0 result.1.slots }
        ensures book { shared_in result.1.book ≡ result.2 }
    {
        let Plot { booked, range } = self.plot.into_inner().into_inner();
        let Booked { table, stock, .. } = booked;
        (range, table, stock)
    }
}

impl<R: Wait + Drop, A: Allocator + Copy, I: MadeBy, D: Ledger, K: Keys> Tree<R, A, I, D, K> {
    /// Puts the booked table, which was made by the configuration, under a lock.
    fn over(rt: R, config: Config, range: K, booked: Booked<A, I, D, K>) -> Tree<R, A, I, D, K>
        requires within { LiesIn (K.range range) booked.slots }
        ensures config { result.config ≡ config }
        ensures range { result.range ≡ range }
    {
        Tree {
            rt,
            config,
            range,
            plot: CachePadded::new(Mutex::new(Plot { booked, range })),
        }
    }
}

impl<R: Wait + Drop, A: Allocator + Copy, I: MadeBy, D: Ledger, K: Keys> Shared<A, Step<A>>
    for Tree<R, A, I, D, K> {
    type Insertions = I;

    type Removals = D;

    ghost made_by = { λ tree. tree.config };

    ghost range = { λ tree. K.range tree.range };

    #[inline(always)]
    fn config(&self) -> Config {
        self.config
    }

    #[inline(always)]
    fn root(&self) -> Place {
        self.plot.lock(&self.rt).booked.table().root()
    }

    #[inline(always)]
    fn visit(&self, place: Place, key: Key, goal: u8) -> Next {
        self.plot
            .lock(&self.rt)
            .booked
            .table()
            .visit(place, key, goal)
    }

    #[inline(always)]
    fn peek(&self, pid: Pid) -> Option<View> {
        self.plot.lock(&self.rt).booked.table().peek(pid)
    }

    #[inline(always)]
    fn look(&self, pid: Pid, key: Key) -> Option<Look> {
        self.plot.lock(&self.rt).booked.table().look(pid, key)
    }

    #[inline(always)]
    fn leaf_at_once(&self, key: Key) -> Option<View> {
        self.plot.lock(&self.rt).booked.table().leaf_at_rest(key)
    }

    #[inline(always)]
    fn look_at_once(&self, key: Key) -> Option<Look> {
        Some(self.plot.lock(&self.rt).booked.table().look_up(key))
    }

    #[tactic(auto, using(crate::proofs::Trees::tree_read))]
    #[inline(always)]
    fn read_at_once(
        &self,
        key: Key,
        high: Fence,
        limit: usize,
        list: &mut Vec<(Key, u64)>,
    ) -> Option<Fence> {
        self.plot
            .lock(&self.rt)
            .booked
            .table()
            .read_leaf(key, high, limit, list)
    }

    /// Performs the action by `Plot::perform`: for a key that the tree doesn't take it isn't performed.
    #[inline(always)]
    fn perform(
        &self,
        alloc: A,
        share: &mut Share<I, D>,
        action: Action,
    ) -> Result<Performed, Unperformed> {
        let spare = action.spare(alloc);
        self.plot
            .lock(&self.rt)
            .perform(alloc, share, action, spare)
    }

    #[inline(always)]
    fn copy_page(&self, alloc: A, pid: Pid, seen: Version) -> Result<Chain<A>, CopyFault> {
        self.plot
            .lock(&self.rt)
            .booked
            .table()
            .copy_page(alloc, pid, seen)
    }

    /// Takes the step by `Plot::install`: it takes no memory, and the change of a key that the tree
    /// doesn't take is refused as `OutOfRange`.
    #[inline(always)]
    fn install(&self, share: &mut Share<I, D>, step: Step<A>) -> Result<Receipt, Denied>
        ensures share { CountsIn share.old share.new result }
        ensures receipt { IfOk result (IsReceiptOf (proposal_of step)) }
        ensures no_want { IfErr result IsRefusal }
    {
        let answer = self.plot.lock(&self.rt).install(share, step);
        match answer {
            Ok(receipt) => Ok(receipt),
            Err(reason) => Err(Denied::Refused(reason)),
        }
    }
}

impl<R: Wait + Drop, A: Allocator + Copy, I: MadeBy, D: Ledger, K: Keys> Ordered<A, Step<A>>
    for Tree<R, A, I, D, K> {
    fn next_at(&self, key: Key) -> Option<(Key, u64)> {
        self.plot.lock(&self.rt).booked.table().next_at(key)
    }

    fn previous_at(&self, key: Key) -> Option<(Key, u64)> {
        self.plot.lock(&self.rt).booked.table().previous_at(key)
    }

    fn len(&self) -> u64 {
        self.plot.lock(&self.rt).booked.len()
    }
}
