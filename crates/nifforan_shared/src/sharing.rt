//! Trees that are shared for the length of one call.

ghost use Rattle.std.specs.Prelude.{◌≡◌, ◌+◌, IsOk, IfOk, IfErr, OnOk};
ghost use Rattle.bw_tree.specs.Trees.{OpensFor};
ghost use Rattle.nifforan_shared.specs.Sharing.{IsShared, IsTableShared, IsBack, MayShare, IsShareFault};
ghost use Rattle.nifforan_shared.specs.declared.fault.ShareFault.TheVariants as faults;

use crate::fault::ShareFault;
use crate::hands::{Gathered, work_all};
use crate::job::{Job, ReadingJob};
use crate::outcome::Outcome;
use crate::reading::readings_of;
use crate::task::{ByHand, WithReader};
use bw_keys::{Config, MAX_WORKERS};
use bw_procedures::Trail;
use bw_snap::{Announcements, MAX_READERS, Naming, ReadTree};
use bw_table::Table;
use bw_tree::{Blanks, MadeBy, Tree, Unshared};
use bw_work::Open;
use std::alloc::Global;
use std::marker::Brand;
use std::sync::Wait;
use std::sync::ledger::Ledger;
use std::thread::Threads;

/// Shares a new tree among `workers` workers, 1 to `MAX_WORKERS`, each of which does the job in a
/// thread of its own, and returns the table once all have ended. Everything lies in the machine's
/// memory.
///
/// A job may end early: [`outputs`](Outcome::outputs) has what it returns, and the table has
/// everything done by then.
///
/// The job says what becomes of the receipts of each worker's accepted steps and looks
/// ([`Trail`](Job::Trail)).
pub fn share<
    O: Drop + Send,
    L: Trail + Send,
    J: Job<Output = O, Trail = L> + Sync,
    R: Threads + Wait + Sync + Send + Copy,
>(
    rt: R,
    machine: Global,
    config: Config,
    workers: u32,
    job: &J,
) -> Result<Outcome<O, L>, ShareFault>
    ensures shared { IfOk result (IsShared L.added (J.promised job.now) config workers) }
    ensures fine { IsOk result → MayShare 64 config workers }
    ensures fault { IfErr result (IsShareFault 64 config workers) }
{
    check(config, workers, MAX_WORKERS)?;
    let Ok(table) = Table::new(machine, machine, config) else {
        return Err(ShareFault::NoMemory);
    };
    match share_table(rt, machine, table, workers, job) {
        Ok(outcome) => Ok(outcome),
        Err(unshared) => Err(unshared.fault),
    }
}

/// Shares a table that may have pairs already, as [`share`] does a new one. Its book is then that of
/// the given table with what the trails tell.
///
/// If it fails, the table comes back: as it was, or, if a thread couldn't be started, with what the
/// others did.
pub fn share_table<
    O: Drop + Send,
    L: Trail + Send,
    J: Job<Output = O, Trail = L> + Sync,
    R: Threads + Wait + Sync + Send + Copy,
>(
    rt: R,
    machine: Global,
    table: Table<Global>,
    workers: u32,
    job: &J,
) -> Result<Outcome<O, L>, Unshared<Global, ShareFault>>
    ensures shared { IfOk result (IsTableShared L.added (J.promised job.now) table workers) }
    ensures fine { IsOk result → MayShare 64 table.config workers }
    ensures fault { IfErr result (λ unshared.
        IsShareFault 64 table.config workers unshared.fault) }
    ensures back { IfErr result (IsBack table) }
{
    if let Err(fault) = check(table.config(), workers, MAX_WORKERS) {
        return Err(Unshared { fault, table });
    }
    let blanks = Blanks::new(workers + 1);
    share_locked::<Brand, Brand, O, L, J, R>(rt, machine, table, workers, blanks, job)
}

/// Shares a new tree among `workers` workers, 1 to `MAX_READERS`, as [`share`] does. Each of them
/// also gets a reader, which reads what was published without the tree's lock. Readers see what
/// workers change only after one of them has published it.
pub fn share_with_readers<
    O: Drop + Send,
    L: Trail + Send,
    J: ReadingJob<Output = O, Trail = L> + Sync,
    R: Threads + Wait + Sync + Send + Copy,
>(
    rt: R,
    machine: Global,
    config: Config,
    workers: u32,
    job: &J,
) -> Result<Outcome<O, L>, ShareFault>
    ensures shared { IfOk result (IsShared L.added (J.promised job.now) config workers) }
    ensures fine { IsOk result → MayShare 16 config workers }
    ensures fault { IfErr result (IsShareFault 16 config workers) }
{
    check(config, workers, MAX_READERS)?;
    let blanks = Blanks::new(workers);
    let announcements = Announcements::new();
    share_read::<Brand, Brand, O, L, J, R>(rt, machine, config, workers, blanks, announcements, job)
}

/// Returns the first fault that can be found before any thread starts, apart from a lack of memory.
fn check(config: Config, workers: u32, most: u32) -> Result<(), ShareFault>
    ensures fine { OnOk result (MayShare most config workers) }
    ensures fault { IfErr result (IsShareFault most config workers) }
{
    if let Err(bad) = config.check() {
        return Err(ShareFault::BadConfig(bad));
    }
    if !(1..=most).contains(&workers) {
        return Err(ShareFault::BadWorkers);
    }
    Ok(())
}

/// Gives back a table that wasn't shared for want of memory.
fn out_of_memory(table: Table<Global>) -> Unshared<Global, ShareFault>
    ensures fault { result.fault ≡ faults.NoMemory }
    ensures back { IsBack table result }
{
    table.law();
    Unshared {
        fault: ShareFault::NoMemory,
        table,
    }
}

/// Shares a table with these blank ledgers, which have parts for one more than the workers.
#[tactic(auto, using(bw_crew::proofs::Workers::few_workers))]
fn share_locked<
    I: MadeBy + Send + Sync,
    D: Ledger + Send + Sync,
    O: Drop + Send,
    L: Trail + Send,
    J: Job<Output = O, Trail = L> + Sync,
    R: Threads + Wait + Sync + Send + Copy,
>(
    rt: R,
    machine: Global,
    table: Table<Global>,
    workers: u32,
    blanks: Blanks,
    job: &J,
) -> Result<Outcome<O, L>, Unshared<Global, ShareFault>>
    requires ledgers { OpensFor I.Ledger I.config D.Ledger table.config blanks }
    requires workers { blanks.workers ≡ workers + 1 }
    requires made { MayShare 64 table.config workers }
    ensures shared { IfOk result (IsTableShared L.added (J.promised job.now) table workers) }
    ensures fault { IfErr result (λ unshared.
        IsShareFault 64 table.config workers unshared.fault) }
    ensures back { IfErr result (IsBack table) }
{
    let Ok(kits) = Vec::from_elem(machine, (), workers as usize) else {
        return Err(out_of_memory(table));
    };
    let made = Tree::<R, Global, I, D>::from_table(rt, machine, table, blanks);
    let (tree, shares, opening) = match made {
        Ok(made) => made,
        Err(unshared) => return Err(out_of_memory(unshared.table)),
    };
    let gathered = work_all(&rt, machine, &tree, &Open, &ByHand { job }, shares, kits);
    let Gathered {
        mut shares,
        trails,
        outputs,
    } = match gathered {
        Ok(gathered) => gathered,
        Err(fault) => {
            return Err(Unshared {
                fault: ShareFault::from(fault),
                table: tree.into_table(),
            });
        }
    };
    shares.push_reserved(opening);
    let Ok(table) = tree.close(shares) else {
        unreachable!()
    };
    Ok(Outcome {
        table,
        outputs,
        trails,
    })
}

/// Shares a tree with a reader for each worker, with these blank ledgers and announcements.
#[tactic(auto, using(bw_crew::proofs::Workers::few_workers))]
fn share_read<
    N: Naming + Send + Sync,
    D: Ledger + Send + Sync,
    O: Drop + Send,
    L: Trail + Send,
    J: ReadingJob<Output = O, Trail = L> + Sync,
    R: Threads + Wait + Sync + Send + Copy,
>(
    rt: R,
    machine: Global,
    config: Config,
    workers: u32,
    blanks: Blanks,
    announcements: Announcements,
    job: &J,
) -> Result<Outcome<O, L>, ShareFault>
    requires announcements { announcements.seen.book ≡ N.announcements }
    requires ledgers { OpensFor N.Ledger N.config D.Ledger config blanks }
    requires workers { blanks.workers ≡ workers }
    requires made { MayShare 16 config workers }
    ensures shared { IfOk result (IsShared L.added (J.promised job.now) config workers) }
    ensures fault { IfErr result (IsShareFault 16 config workers) }
{
    let made = ReadTree::<R, N, D>::with_readers(
        rt,
        machine,
        config,
        blanks,
        announcements,
        workers,
    );
    let Ok((tree, shares, readers)) = made else {
        return Err(ShareFault::NoMemory);
    };
    let kits = readings_of(machine, &tree, readers)?;
    let Gathered {
        shares,
        trails,
        outputs,
    } = work_all(
        &rt,
        machine,
        &tree,
        &Open,
        &WithReader { job },
        shares,
        kits,
    )?;
    let Ok(table) = tree.close(shares) else {
        unreachable!()
    };
    Ok(Outcome {
        table,
        outputs,
        trails,
    })
}
