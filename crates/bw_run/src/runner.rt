//! Runs of a trace by worker threads.

ghost use Rattle.std.specs.Prelude.{◌≡◌, ◌<◌, IsOk, IfOk, IfErr, length};
ghost use Rattle.std.specs.List.{AllByRecursion};
ghost use Rattle.bw_step.specs.Trails.{lists_of};
ghost use Rattle.bw_tree.specs.Trees.{OpensFor, IsTree, CountsPairs, MayBeMade};
ghost use Rattle.bw_crew.specs.Workers.{changes_in};
ghost use Rattle.bw_run.specs.Faults.{IsRunFault, MayRun};
ghost use Rattle.bw_run.specs.Runs.{IsRunOf, IsLegalRun, TellsItsReplies};

use crate::checks::check_crew;
use crate::ending::{Finished, finish};
use crate::fault::RunFault;
use crate::progress::Progress;
use crate::rows::do_rows;
use bw_keys::Config;
use bw_snap::{Announcements, MAX_READERS, Naming, ReadTree, SnapFault};
use bw_texts::Row;
use bw_tree::{Blanks, MadeBy, Tree};
use bw_work::Gate;
use nifforan_shared::readings_of;
use std::alloc::Global;
use std::convert::Infallible;
use std::marker::Brand;
use std::sync::Wait;
use std::sync::ledger::Ledger;
use std::thread::Threads;

/// Runs a trace on a new table: `workers` workers, 1 to `MAX_WORKERS`, each in a thread of its own,
/// do their rows in the order of the trace, side by side on one tree, and call the gate. Then the
/// trails of their receipts are audited with the pairs that the table has.
///
/// Each of the first `readers` workers, which are at most all of them and at most `MAX_READERS`,
/// has a reader: at a row that gets a key it publishes what was changed, lets its reader learn of
/// that, and replies what the reader finds, without the lock. With no readers nothing is published.
///
/// If a worker gives up a row, it does no more, and the others do all of theirs.
pub fn run<R: Threads + Wait + Sync + Send + Copy, G: Gate + Sync>(
    rt: R,
    machine: Global,
    config: Config,
    workers: u32,
    readers: u32,
    rows: &[Row],
    gate: &G,
) -> Result<Finished, RunFault>
    requires { AllByRecursion (λ row. row.worker < workers) rows.now }
    ensures replies { IfOk result (λ finished. length finished.replies.items ≡ length rows.now) }
    ensures trails { IfOk result (λ finished. length finished.trails.items ≡ workers) }
    ensures reported { IfOk result (TellsItsReplies workers rows.now) }
    ensures tree { IfOk result (λ finished. IsTree finished.table) }
    ensures config { IfOk result (λ finished. finished.table.config ≡ config) }
    ensures legal { IfOk result IsLegalRun }
    ensures count { IfOk result (λ finished.
        CountsPairs finished.table (changes_in (lists_of finished.trails.items))) }
    ensures fine { IsOk result → MayRun config workers readers }
    ensures fault { IfErr result (IsRunFault config workers readers rows.now) }
{
    let progress = Progress::new();
    run_counted(rt, machine, config, workers, readers, rows, gate, &progress)
}

/// Runs a trace as [`run`] does, and counts its rows meanwhile.
#[tactic(auto, using(crate::proofs::Runs::crew_in_run))]
pub fn run_counted<R: Threads + Wait + Sync + Send + Copy, G: Gate + Sync>(
    rt: R,
    machine: Global,
    config: Config,
    workers: u32,
    readers: u32,
    rows: &[Row],
    gate: &G,
    progress: &Progress,
) -> Result<Finished, RunFault>
    requires { AllByRecursion (λ row. row.worker < workers) rows.now }
    ensures finished { IfOk result (IsRunOf workers rows.now) }
    ensures config { IfOk result (λ finished. finished.table.config ≡ config) }
    ensures fine { IsOk result → MayRun config workers readers }
    ensures fault { IfErr result (IsRunFault config workers readers rows.now) }
{
    check_crew(config, workers)?;
    if readers > workers.min(MAX_READERS) {
        return Err(RunFault::Readers);
    }
    let blanks = Blanks::new(workers);
    if readers == 0 {
        return run_locked::<Brand, Brand, R, G>(rt, machine, config, blanks, rows, gate, progress);
    }
    run_read::<Brand, Brand, R, G>(
        rt,
        machine,
        config,
        blanks,
        Announcements::new(),
        readers,
        rows,
        gate,
        progress,
    )
}

/// Runs the rows on a tree whose lock all reads take, with these blank ledgers.
fn run_locked<
    I: MadeBy + Send + Sync,
    D: Ledger + Send + Sync,
    R: Threads + Wait + Sync + Send + Copy,
    G: Gate + Sync,
>(
    rt: R,
    machine: Global,
    config: Config,
    blanks: Blanks,
    rows: &[Row],
    gate: &G,
    progress: &Progress,
) -> Result<Finished, RunFault>
    requires ledgers { OpensFor I.Ledger I.config D.Ledger config blanks }
    requires made { MayBeMade config blanks.workers }
    requires workers { AllByRecursion (λ row. row.worker < blanks.workers) rows.now }
    ensures finished { IfOk result (IsRunOf blanks.workers rows.now) }
    ensures config { IfOk result (λ finished. finished.table.config ≡ config) }
    ensures fault { IfErr result (IsRunFault config blanks.workers 0 rows.now) }
{
    let Ok((tree, shares)) = Tree::<R, Global, I, D>::new(rt, machine, machine, config, blanks)
    else {
        return Err(RunFault::Memory);
    };
    let readers = Vec::<Infallible>::new(machine);
    let all = do_rows(&rt, machine, &tree, shares, readers, rows, gate, progress)?;
    let Ok(table) = tree.close(all.shares) else {
        unreachable!()
    };
    finish(machine, rows, table, all.outputs, all.trails)
}

/// Runs the rows on a tree with `readers` readers, with these blank ledgers and announcements.
fn run_read<
    N: Naming + Send + Sync,
    D: Ledger + Send + Sync,
    R: Threads + Wait + Sync + Send + Copy,
    G: Gate + Sync,
>(
    rt: R,
    machine: Global,
    config: Config,
    blanks: Blanks,
    announcements: Announcements,
    readers: u32,
    rows: &[Row],
    gate: &G,
    progress: &Progress,
) -> Result<Finished, RunFault>
    requires announcements { announcements.seen.book ≡ N.announcements }
    requires ledgers { OpensFor N.Ledger N.config D.Ledger config blanks }
    requires made { MayRun config blanks.workers readers }
    requires some { 0 < readers }
    requires workers { AllByRecursion (λ row. row.worker < blanks.workers) rows.now }
    ensures finished { IfOk result (IsRunOf blanks.workers rows.now) }
    ensures config { IfOk result (λ finished. finished.table.config ≡ config) }
    ensures fault { IfErr result (IsRunFault config blanks.workers readers rows.now) }
{
    let made = ReadTree::<R, N, D>::with_readers(
        rt,
        machine,
        config,
        blanks,
        announcements,
        readers,
    );
    let (tree, shares, readers) = match made {
        Ok(made) => made,
        Err(SnapFault::NoReader) => return Err(RunFault::NoReader),
        Err(_) => return Err(RunFault::Memory),
    };
    let readers = readings_of(machine, &tree, readers)?;
    let all = do_rows(&rt, machine, &tree, shares, readers, rows, gate, progress)?;
    let Ok(table) = tree.close(all.shares) else {
        unreachable!()
    };
    finish(machine, rows, table, all.outputs, all.trails)
}
