//! A table whose book is what its stock counted, at every moment outside its own calls.

ghost use Rattle.std.specs.Prelude.{◌≡◌, ◌≢◌, ◌+◌, ◌-◌, ◌<◌, ◌↔◌, None, Some, All, length, IsOk, IfOk, IfErr, OnOk, OnErr};
ghost use Rattle.bw_step.specs.ProposalView.{proposal_of};
ghost use Rattle.bw_law.specs.Tables.{new_table, TableValue};
ghost use Rattle.bw_law.specs.Laws.{MapAfter};
ghost use Rattle.bw_law.specs.Refusals.{refusal};
ghost use Rattle.bw_table.specs.Actions.{IsPerformed, IsWhyNot};
ghost use Rattle.bw_table.specs.Orders.{HasPairs};
ghost use Rattle.bw_tree.specs.Shares.{no_changes, shared_in, CountsIn, CountsPerformed};
ghost use Rattle.bw_tree.specs.Stocks.{closing};
ghost use Rattle.bw_step.specs.Actions.{Reports};
ghost use Rattle.bw_step.specs.Steps.{IsReceiptOf};
ghost use Rattle.bw_tree.specs.Trees.{IsTree, IsClosed, Leads, OpensFor, IsNewFault, MayBeMade, IsBookOf};
ghost use Rattle.bw_table.specs.Codes.{table_code};

use crate::fault::{MissingShare, NewFault, Unshared};
use crate::keys::{AnyKey, Keys};
use crate::made_by::MadeBy;
use crate::share::{Blanks, Share};
use crate::stock::{Stock, Totals, open_one};
use bw_delta::Spare;
use bw_keys::{Config, MAX_WORKERS};
use bw_step::{Action, Performed, Receipt, Refused, Step, Unperformed};
use bw_table::Table;
use std::alloc::{Allocator, Global};
use std::marker::{Model, PhantomData};
use std::sync::ledger::Ledger;

/// A table, the stock that counted what its book has, and in a tree alone the totals that close the
/// count. Contracts see it as the table.
#[derive(Drop)]
pub struct Booked<A: Allocator + Copy, I: MadeBy, D: Ledger, K: Keys = AnyKey> {
    pub(crate) table: Table<A>,
    pub(crate) stock: Stock<I, D>,
    totals: Option<Totals<I, D>>,
    keys: PhantomData<K>,
}

impl<A: Allocator + Copy, I: MadeBy, D: Ledger, K: Keys> Model for Booked<A, I, D, K> {
    ghost Value = { TableValue };

    ghost coded = { table_code };

    ghost view = { λ b. b.table };

    ghost invariant = { λ b. IsBookOf b.table b.stock × (b.table.config ≡ I.config)
        × (b.totals ≡ closing K.alone I.parts) };
}

impl<A: Allocator + Copy, I: MadeBy, D: Ledger> Booked<A, I, D> {
    /// Returns a table without pairs, and a share of nothing for each worker that the blank ledgers
    /// were made for, 1 to `MAX_WORKERS`. The chains lie in `alloc`, all else in the machine's
    /// memory.
    pub fn new(
        machine: Global,
        alloc: A,
        config: Config,
        blanks: Blanks,
    ) -> Result<(Booked<A, I, D>, Vec<Share<I, D>>), NewFault>
        requires ledgers { OpensFor I.Ledger I.config D.Ledger config blanks }
        ensures table { IfOk result (λ made. made.0 ≡ new_table config) }
        ensures count { IfOk result (λ made. length made.1.items ≡ blanks.workers) }
        ensures shares { IfOk result (λ made. All (λ share. share ≡ no_changes) made.1.items) }
        ensures fine { IsOk result → MayBeMade config blanks.workers }
        ensures fault { IfErr result (IsNewFault config blanks.workers) }
    {
        check(&config, blanks.workers)?;
        let Ok(table) = Table::new(machine, alloc, config) else {
            return Err(NewFault::NoMemory);
        };
        let Ok((stock, totals, shares)) = open_one(machine, blanks) else {
            return Err(NewFault::NoMemory);
        };
        Ok((Booked::over(table, stock, Some(totals)), shares))
    }

    /// Returns the table with its pairs, a share of nothing for each worker, 1 to `MAX_WORKERS`, and
    /// an opening share, which belongs to no worker: it has what the table's book counted before. The
    /// blank ledgers have a part for each worker and one for the opening share, which
    /// [`close`](Booked::close) takes back too.
    ///
    /// A failed call gives the table back as it was.
    pub fn from_table(
        machine: Global,
        table: Table<A>,
        blanks: Blanks,
    ) -> Result<(Booked<A, I, D>, Vec<Share<I, D>>, Share<I, D>), Unshared<A>>
        requires ledgers { OpensFor I.Ledger I.config D.Ledger table.config blanks }
        ensures table { IfOk result (λ made. made.0 ≡ table) }
        ensures count { IfOk result (λ made. length made.1.items + 1 ≡ blanks.workers) }
        ensures shares { IfOk result (λ made. All (λ share. share ≡ no_changes) made.1.items) }
        ensures opening { IfOk result (λ made. made.2 ≡ shared_in table.book) }
        ensures fine { IsOk result → MayBeMade table.config (blanks.workers - 1) }
        ensures fault { IfErr result (λ unshared.
            IsNewFault table.config (blanks.workers - 1) unshared.fault) }
        ensures back { IfErr result (λ unshared. unshared.table ≡ table) }
    {
        let workers = blanks.workers.saturating_sub(1);
        if let Err(fault) = check(&table.config(), workers) {
            return Err(Unshared { fault, table });
        }
        let Ok((mut stock, totals, mut shares)) = open_one(machine, blanks) else {
            return Err(Unshared {
                fault: NewFault::NoMemory,
                table,
            });
        };
        let Some(mut opening) = shares.pop() else {
            unreachable!()
        };
        stock.begin(&mut opening, table.book());
        Ok((Booked::over(table, stock, Some(totals)), shares, opening))
    }

    /// Returns the table, and asks for no share. So nothing ties its book to the shares.
    pub fn into_table(self) -> Table<A>
        ensures table { result ≡ self }
        ensures config { result.config ≡ I.config }
        ensures tree { IsTree result }
    {
        let Self { table, .. } = self;
        table
    }

    /// Returns the table, whose book is the sum of the shares, which are all that there are. Fails
    /// where one is missing, and drops the table: `into_table` returns it then.
    pub fn close(self, shares: Vec<Share<I, D>>) -> Result<Table<A>, MissingShare>
        ensures table { IfOk result (λ table. table ≡ self) }
        ensures closed { IfOk result (IsClosed I.config shares.items) }
        ensures all { IsOk result ↔ (length shares.items ≡ I.parts) }
        ensures missing { OnErr result (length shares.items < I.parts) }
    {
        let (table, stock, totals) = (self.table, self.stock, self.totals);
        let Some(mut totals) = totals else {
            unreachable!()
        };
        totals.take(stock);
        totals.close(shares)?;
        Ok(table)
    }
}

impl<A: Allocator + Copy, I: MadeBy, D: Ledger, K: Keys> Booked<A, I, D, K> {
    /// Puts a table beside the stock that counted what its book has.
    pub(crate) fn over(
        table: Table<A>,
        stock: Stock<I, D>,
        totals: Option<Totals<I, D>>,
    ) -> Booked<A, I, D, K>
        requires made { table.config ≡ I.config }
        requires stock { stock ≡ shared_in table.book }
        requires closes { totals ≡ closing K.alone I.parts }
        ensures table { result ≡ table }
    {
        table.law();
        Booked {
            table,
            stock,
            totals,
            keys: PhantomData,
        }
    }

    /// Returns the table.
    #[tactic(auto, using(crate::proofs::Trees::is_tree))]
    #[inline(always)]
    pub fn table(&self) -> &Table<A>
        ensures same { result.now ≡ self.now }
        ensures tree { IsTree self.now }
    {
        &self.table
    }

    /// Returns how many pairs the map has.
    pub fn len(&self) -> u64
        ensures pairs { HasPairs self.now result }
    {
        let book = self.table.book();
        book.inserted - book.removed
    }

    /// Takes the step as `Table::install` does, and counts an insertion or a removal in the share.
    #[inline(always)]
    pub fn install(&mut self, share: &mut Share<I, D>, step: Step<A>) -> Result<Receipt, Refused>
        ensures accepted { IsOk result ↔ (refusal self.old (proposal_of step) ≡ None) }
        ensures taken { IfOk result (Leads self.old (proposal_of step) self.new) }
        ensures reported { IfOk result (IsReceiptOf (proposal_of step)) }
        ensures map { OnOk result (MapAfter self.old (proposal_of step)) }
        ensures refused { IfErr result (λ why. refusal self.old (proposal_of step) ≡ Some why) }
        ensures unchanged { OnErr result (self.new ≡ self.old) }
        ensures share { CountsIn share.old share.new result }
    {
        let receipt = self.table.install(step)?;
        self.stock.count(share, receipt);
        Ok(receipt)
    }

    /// Performs the action as `Table::perform` does, and counts an insertion or a removal in the share.
    #[inline(always)]
    pub fn perform(
        &mut self,
        alloc: A,
        share: &mut Share<I, D>,
        action: Action,
        spare: Option<Spare<A>>,
    ) -> Result<Performed, Unperformed>
        ensures done { IfOk result (IsPerformed self.old action self.new) }
        ensures reports { IfOk result (Reports action) }
        ensures why { IfErr result (IsWhyNot self.old action) }
        ensures unchanged { OnErr result (self.new ≡ self.old) }
        ensures share { CountsPerformed share.old share.new result }
    {
        let done = self.table.perform(alloc, action, spare)?;
        self.stock.count(share, done.receipt);
        Ok(done)
    }
}

/// Returns the first fault of a tree's arguments, in the order of [`NewFault`].
pub fn check(config: &Config, workers: u32) -> Result<(), NewFault>
    ensures fine { OnOk result (MayBeMade config.now workers) }
    ensures fault { IfErr result (IsNewFault config.now workers) }
    ensures no_want { IfErr result (λ fault. fault ≢ NewFault.NoMemory) }
{
    if let Err(bad) = config.check() {
        return Err(NewFault::BadConfig(bad));
    }
    if !(1..=MAX_WORKERS).contains(&workers) {
        return Err(NewFault::BadWorkers);
    }
    Ok(())
}
