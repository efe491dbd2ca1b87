//! The lock round a published table.

ghost use Rattle.std.specs.Prelude.{◌≡◌, ◌<◌, ◌↔◌, [], IsOk, IfOk, IfErr, OnOk, OnErr, All, length};
ghost use Rattle.bw_step.specs.ProposalView.{proposal_of};
ghost use Rattle.bw_step.specs.Steps.{IsReceiptOf};
ghost use Rattle.bw_tree.specs.Shares.{no_changes, CountsIn};
ghost use Rattle.bw_tree.specs.Trees.{IsTree, IsClosed, OpensFor};
ghost use Rattle.bw_snap.specs.Trees.{IsSnapFault, IsWant, MayBeRead};

use crate::fault::SnapFault;
use crate::front::{Announcements, Naming};
use crate::published::Published;
use crate::reader::Reader;
use crate::stamp::Stamp;
use bw_delta::{Chain, NoMemory};
use bw_keys::{Config, Key, Pid, Version};
use bw_step::{
    Action, CopyFault, Denied, Look, Next, Performed, Place, Receipt, Step, Unperformed, View,
};
use bw_table::Table;
use bw_tree::{Blanks, MissingShare, Ordered, Share, Shared};
use std::alloc::Global;
use std::sync::ledger::Ledger;
use std::sync::{Mutex, Wait};

/// A shared tree that readers read without its lock. It lies in the machine's memory. What workers
/// change is pending until somebody publishes it.
#[derive(Drop)]
pub struct ReadTree<R: Wait + Copy, N: Naming, D: Ledger> {
    rt: R,
    machine: Global,
    config: Config,
    published: Mutex<Published<R, N, D>>,
}

impl<R: Wait + Copy, N: Naming, D: Ledger> ReadTree<R, N, D> {
    /// Returns a tree without pairs, the workers' shares, and `readers` readers that have seen
    /// nothing, 1 to `MAX_READERS`.
    pub fn with_readers(
        rt: R,
        machine: Global,
        config: Config,
        blanks: Blanks,
        announcements: Announcements,
        readers: u32,
    ) -> Result<(ReadTree<R, N, D>, Vec<Share<N, D>>, Vec<Reader<N>>), SnapFault>
        requires ledgers { OpensFor N.Ledger N.config D.Ledger config blanks }
        requires announcements { announcements.seen.book ≡ N.announcements }
        ensures config { IfOk result (λ made. made.0.config ≡ config) }
        ensures count { IfOk result (λ made. length made.1.items ≡ blanks.workers) }
        ensures shares { IfOk result (λ made. All (λ share. share ≡ no_changes) made.1.items) }
        ensures readers { IfOk result (λ made. length made.2.items ≡ readers) }
        ensures unread { IfOk result (λ made. All (λ reader. reader ≡ []) made.2.items) }
        ensures fine { OnOk result (MayBeRead config blanks.workers readers) }
        ensures fault { IfErr result (IsSnapFault config blanks.workers readers) }
    {
        let (published, shares) = Published::new(
            rt,
            machine,
            config,
            blanks,
            announcements,
            readers,
        )?;
        let readers = readers_of(machine, &published, readers)?;
        let tree = ReadTree {
            rt,
            machine,
            config,
            published: Mutex::new(published),
        };
        Ok((tree, shares, readers))
    }

    /// Publishes all that was taken, and returns a stamp of the list that was published. Fails where
    /// memory is refused, as `Published::publish` does.
    pub fn publish(&self) -> Result<Stamp<N>, NoMemory> {
        self.published.lock(&self.rt).publish()
    }

    /// Returns the table, and asks for no share, as `Booked::into_table` does. The readers answer no
    /// more.
    pub fn into_table(self) -> Table<Global>
        ensures config { result.config ≡ N.config }
        ensures tree { IsTree result }
    {
        let Self { published, .. } = self;
        published.into_inner().into_table()
    }

    /// Returns the table, as `Booked::close` does. The readers answer no more. Where a worker
    /// dropped its share, as by an early `?`, it fails with [`MissingShare`], and all pairs are
    /// lost. So have each worker hand its share back beside its error, or take the table by
    /// [`into_table`](ReadTree::into_table).
    pub fn close(self, shares: Vec<Share<N, D>>) -> Result<Table<Global>, MissingShare>
        ensures closed { IfOk result (IsClosed N.config shares.items) }
        ensures all { IsOk result ↔ (length shares.items ≡ N.parts) }
        ensures missing { OnErr result (length shares.items < N.parts) }
    {
        let ReadTree { published, .. } = self;
        published.into_inner().close(shares)
    }
}

/// Returns `count` readers of what is published.
fn readers_of<R: Wait + Copy, N: Naming, D: Ledger>(
    machine: Global,
    published: &Published<R, N, D>,
    count: u32,
) -> Result<Vec<Reader<N>>, SnapFault>
    requires { published.now.list ≡ [] }
    ensures count { IfOk result (λ readers. length readers.items ≡ count) }
    ensures unread { IfOk result (λ readers. All (λ reader. reader ≡ []) readers.items) }
    ensures fault { IfErr result IsWant }
{
    let Ok(mut readers) = Vec::with_capacity(machine, count as usize) else {
        return Err(SnapFault::NoMemory);
    };
    for _reader in 0..count {
        let Ok(reader) = published.reader() else {
            return Err(SnapFault::NoReader);
        };
        readers.push_reserved(reader);
    }
    Ok(readers)
}

impl<R: Wait + Copy, N: Naming, D: Ledger> Shared<Global, Step<Global>> for ReadTree<R, N, D> {
    type Insertions = N;

    type Removals = D;

    ghost made_by = { λ tree. tree.config };

    #[inline(always)]
    fn config(&self) -> Config {
        self.config
    }

    #[inline(always)]
    fn root(&self) -> Place {
        self.published.lock(&self.rt).table().root()
    }

    #[inline(always)]
    fn visit(&self, place: Place, key: Key, goal: u8) -> Next {
        self.published
            .lock(&self.rt)
            .table()
            .visit(place, key, goal)
    }

    #[inline(always)]
    fn peek(&self, pid: Pid) -> Option<View> {
        self.published.lock(&self.rt).table().peek(pid)
    }

    #[inline(always)]
    fn look(&self, pid: Pid, key: Key) -> Option<Look> {
        self.published.lock(&self.rt).table().look(pid, key)
    }

    #[inline(always)]
    fn leaf_at_once(&self, key: Key) -> Option<View> {
        self.published.lock(&self.rt).table().leaf_at_rest(key)
    }

    #[inline(always)]
    fn look_at_once(&self, key: Key) -> Option<Look> {
        Some(self.published.lock(&self.rt).table().look_up(key))
    }

    #[inline(always)]
    fn perform(
        &self,
        alloc: Global,
        share: &mut Share<N, D>,
        action: Action,
    ) -> Result<Performed, Unperformed> {
        let spare = action.spare(alloc);
        self.published
            .lock(&self.rt)
            .perform(alloc, share, action, spare)
    }

    #[inline(always)]
    fn copy_page(
        &self,
        alloc: Global,
        pid: Pid,
        seen: Version,
    ) -> Result<Chain<Global>, CopyFault> {
        self.published
            .lock(&self.rt)
            .table()
            .copy_page(alloc, pid, seen)
    }

    /// Takes the step by `Published::install`. The step's twin is made before the lock is taken.
    #[inline(always)]
    fn install(&self, share: &mut Share<N, D>, step: Step<Global>) -> Result<Receipt, Denied>
        ensures share { CountsIn share.old share.new result }
        ensures receipt { IfOk result (IsReceiptOf (proposal_of step)) }
    {
        match step.twin(self.machine) {
            Ok(twin) => self.published.lock(&self.rt).install(share, step, twin),
            Err(NoMemory) => Err(Denied::NoMemory),
        }
    }
}

impl<R: Wait + Copy, N: Naming, D: Ledger> Ordered<Global, Step<Global>> for ReadTree<R, N, D> {
    fn next_at(&self, key: Key) -> Option<(Key, u64)> {
        self.published.lock(&self.rt).table().next_at(key)
    }

    fn previous_at(&self, key: Key) -> Option<(Key, u64)> {
        self.published.lock(&self.rt).table().previous_at(key)
    }

    fn len(&self) -> u64 {
        self.published.lock(&self.rt).len()
    }
}
