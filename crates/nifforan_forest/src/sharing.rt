//! Forests that are shared for the length of one call.

ghost use Rattle.std.specs.Prelude.{◌≡◌, ◌+◌, ◌*◌, ◌≤◌, ◌++◌, [], All, IsOk, IfOk, IfErr, OnOk, length, map, vec_capacity};
ghost use Rattle.bw_crew.specs.Workers.{share_by};
ghost use Rattle.bw_forest.specs.Forests.{IsClosedForest, config_of};
ghost use Rattle.bw_tree.specs.Shares.{no_changes};
ghost use Rattle.bw_tree.specs.Stocks.{OpensForest};
ghost use Rattle.bw_tree.specs.Trees.{MayBeMade};
ghost use Rattle.nifforan_forest.specs.Sharing.{ComesBack, IsClosedForestShared, IsForestBack, IsForestShared, IsLate, IsShareForestFault};
ghost use Rattle.nifforan_forest.specs.Workers.{AllReturn, trails_of};

use crate::crew::work_all;
use crate::fault::ShareForestFault;
use crate::hand::Divides;
use crate::job::ForestJob;
use crate::outcome::ForestOutcome;
use crate::unshared::UnsharedForest;
use bw_crew::CrewFault;
use bw_delta::NoMemory;
use bw_forest::{Bounds, ClosedForest, Forest};
use bw_keys::{Config, MAX_WORKERS};
use bw_procedures::Trail;
use bw_tree::{Blanks, MadeBy, NewFault, Share};
use std::alloc::Global;
use std::marker::Brand;
use std::sync::Wait;
use std::sync::ledger::Ledger;
use std::thread::Threads;

/// Shares a new forest, with a tree for each range, among `workers` workers, 1 to `MAX_WORKERS`,
/// each of which does the job in a thread of its own, and returns the trees once all have ended.
/// Everything lies in the machine's memory. The configuration is for each tree, so each has as many
/// pages as it says.
///
/// A job may end early: [`workers`](ForestOutcome::workers) has what it returns, and the trees have
/// everything done by then.
///
/// The job says what becomes of the receipts of each worker's accepted steps and looks
/// ([`Trail`](ForestJob::Trail)).
pub fn share_forest<
    O: Drop + Send,
    L: Trail + Send,
    J: ForestJob<Output = O, Trail = L> + Sync,
    R: Threads + Wait + Sync + Send + Copy,
>(
    rt: R,
    machine: Global,
    bounds: Bounds,
    config: Config,
    workers: u32,
    job: &J,
) -> Result<ForestOutcome<O, L>, ShareForestFault>
    ensures shared { IfOk result
        (IsForestShared L.added (J.promised job.now) bounds config workers) }
    ensures fine { IsOk result → MayBeMade config workers }
    ensures fault { IfErr result (IsShareForestFault config workers) }
{
    let blanks = Blanks::of_forest(bounds.trees(), workers);
    share_new::<Brand, Brand, O, L, J, R>(rt, machine, bounds, config, blanks, job)
}

/// Shares a forest that was closed, as [`share_forest`] does a new one: its trees go on with the
/// pairs that they have. [`ClosedForest::of`] makes one of tables from elsewhere.
///
/// If it fails, the forest comes back: as it was after one of the first three faults, and otherwise
/// with what the workers that started did.
pub fn share_closed_forest<
    O: Drop + Send,
    L: Trail + Send,
    J: ForestJob<Output = O, Trail = L> + Sync,
    R: Threads + Wait + Sync + Send + Copy,
>(
    rt: R,
    machine: Global,
    forest: ClosedForest<Global>,
    workers: u32,
    job: &J,
) -> Result<ForestOutcome<O, L>, UnsharedForest>
    ensures shared { IfOk result
        (IsClosedForestShared L.added (J.promised job.now) forest workers) }
    ensures fine { IsOk result → MayBeMade (config_of forest.tables) workers }
    ensures fault { IfErr result (λ it.
        IsShareForestFault (config_of forest.tables) workers it.fault) }
    ensures back { IfErr result (IsForestBack forest) }
{
    if let Err(fault) = check(forest.config(), workers) {
        return Err(UnsharedForest {
            fault,
            forest: Ok(forest),
        });
    }
    let blanks = Blanks::of_forest(forest.bounds().trees(), workers + 1);
    share_again::<Brand, Brand, O, L, J, R>(rt, machine, forest, workers, blanks, job)
}

/// Returns the first fault that can be found before any thread starts, apart from a lack of memory.
fn check(config: Config, workers: u32) -> Result<(), ShareForestFault>
    ensures fine { OnOk result (MayBeMade config workers) }
    ensures fault { IfErr result (IsShareForestFault config workers) }
{
    if let Err(bad) = config.check() {
        return Err(ShareForestFault::BadConfig(bad));
    }
    if !(1..=MAX_WORKERS).contains(&workers) {
        return Err(ShareForestFault::BadWorkers);
    }
    Ok(())
}

/// Shares a new forest with these blank ledgers.
fn share_new<
    I: Divides + Send + Sync,
    D: Ledger + Send + Sync,
    O: Drop + Send,
    L: Trail + Send,
    J: ForestJob<Output = O, Trail = L> + Sync,
    R: Threads + Wait + Sync + Send + Copy,
>(
    rt: R,
    machine: Global,
    bounds: Bounds,
    config: Config,
    blanks: Blanks,
    job: &J,
) -> Result<ForestOutcome<O, L>, ShareForestFault>
    requires ledgers { OpensForest I.Ledger I.config D.Ledger config blanks }
    requires trees { blanks.trees ≡ length bounds }
    requires divided { bounds ≡ I.bounds }
    ensures shared { IfOk result
        (IsForestShared L.added (J.promised job.now) bounds config blanks.workers) }
    ensures fine { IsOk result → MayBeMade config blanks.workers }
    ensures fault { IfErr result (IsShareForestFault config blanks.workers) }
{
    let made = Forest::<R, Global, I, D>::new(rt, machine, machine, config, bounds, blanks);
    let (forest, shares) = match made {
        Ok(made) => made,
        Err(NewFault::BadConfig(bad)) => return Err(ShareForestFault::BadConfig(bad)),
        Err(NewFault::BadWorkers) => return Err(ShareForestFault::BadWorkers),
        Err(NewFault::NoMemory) => return Err(ShareForestFault::NoMemory),
    };
    let room = match room_for_shares(machine, shares.len(), forest.trees().len()) {
        Ok(room) => room,
        Err(NoMemory) => return Err(ShareForestFault::NoMemory),
    };
    match share_open(rt, machine, forest, shares, room, job) {
        Ok(outcome) => Ok(outcome),
        Err(unshared) => Err(unshared.fault),
    }
}

/// Shares a closed forest with these blank ledgers, which have parts for one more than the workers.
fn share_again<
    I: Divides + Send + Sync,
    D: Ledger + Send + Sync,
    O: Drop + Send,
    L: Trail + Send,
    J: ForestJob<Output = O, Trail = L> + Sync,
    R: Threads + Wait + Sync + Send + Copy,
>(
    rt: R,
    machine: Global,
    forest: ClosedForest<Global>,
    workers: u32,
    blanks: Blanks,
    job: &J,
) -> Result<ForestOutcome<O, L>, UnsharedForest>
    requires ledgers { OpensForest I.Ledger I.config D.Ledger (config_of forest.tables) blanks }
    requires trees { blanks.trees ≡ length forest.bounds }
    requires workers { blanks.workers ≡ workers + 1 }
    requires divided { forest.bounds ≡ I.bounds }
    requires fine { MayBeMade (config_of forest.tables) workers }
    ensures shared { IfOk result
        (IsClosedForestShared L.added (J.promised job.now) forest workers) }
    ensures fault { IfErr result (λ it.
        IsShareForestFault (config_of forest.tables) workers it.fault) }
    ensures back { IfErr result (IsForestBack forest) }
{
    let trees = forest.bounds().trees() as usize;
    let room = match room_for_shares(machine, blanks.workers as usize, trees) {
        Ok(room) => room,
        Err(NoMemory) => {
            return Err(UnsharedForest {
                fault: ShareForestFault::NoMemory,
                forest: Ok(forest),
            });
        }
    };
    let made = Forest::<R, Global, I, D>::from_closed(rt, machine, forest, blanks);
    let (forest, shares, opening) = match made {
        Ok(made) => made,
        Err(unopened) => {
            return Err(UnsharedForest {
                fault: ShareForestFault::NoMemory,
                forest: Ok(unopened.forest),
            });
        }
    };
    match share_open(rt, machine, forest, shares, joined(room, opening), job) {
        Ok(outcome) => Ok(outcome),
        Err(unshared) => Err(unshared),
    }
}

/// Does the job with each list of shares, and closes the forest with them and the opening ones.
fn share_open<
    I: Divides + Send + Sync,
    D: Ledger + Send + Sync,
    O: Drop + Send,
    L: Trail + Send,
    J: ForestJob<Output = O, Trail = L> + Sync,
    R: Threads + Wait + Sync + Send + Copy,
>(
    rt: R,
    machine: Global,
    forest: Forest<R, Global, I, D>,
    shares: Vec<Vec<Share<I, D>>>,
    opening: Vec<Share<I, D>>,
    job: &J,
) -> Result<ForestOutcome<O, L>, UnsharedForest>
    requires divided { forest.bounds ≡ I.bounds }
    requires fine { MayBeMade I.config (length shares.items) }
    requires each { All (λ its. length its.items ≡ length I.bounds) shares.items }
    requires new { All (λ its. All (λ share. share ≡ no_changes) its.items) shares.items }
    requires whole { length opening.items + length shares.items * length I.bounds
        ≡ forest.totals.workers * length I.bounds }
    requires room { length opening.items + length shares.items * length I.bounds
        ≤ vec_capacity opening }
    ensures ranges { IfOk result (λ shared. shared.forest.bounds ≡ I.bounds) }
    ensures closed { IfOk result (λ shared. IsClosedForest I.config
        (opening.items ++ map share_by (trails_of L.added shared.workers.items))
        shared.forest) }
    ensures returned { IfOk result (λ shared.
        length shared.workers.items ≡ length shares.items) }
    ensures trails { IfOk result (λ shared.
        All (λ it. length it.trails.items ≡ length I.bounds) shared.workers.items) }
    ensures promised { IfOk result (λ shared.
        AllReturn L.added (J.promised job.now) I.bounds shared.workers.items) }
    ensures late { IfErr result (λ it. IsLate it.fault) }
    ensures back { IfErr result (ComesBack I.bounds I.config) }
{
    let gathered = work_all(
        &rt,
        machine,
        forest.bounds(),
        forest.trees(),
        shares,
        opening,
        job,
    );
    let (shares, workers) = match gathered {
        Ok(gathered) => gathered,
        Err(fault) => return Err(give_back(forest, fault)),
    };
    match forest.close(shares) {
        Ok(forest) => Ok(ForestOutcome { forest, workers }),
        Err(apart) => Err(UnsharedForest {
            fault: ShareForestFault::OtherRange,
            forest: Err(apart),
        }),
    }
}

/// Makes room for the shares of all workers at all trees before any of them starts, so that nothing
/// done is lost for want of it.
fn room_for_shares<I: MadeBy, D: Ledger>(
    machine: Global,
    workers: usize,
    trees: usize,
) -> Result<Vec<Share<I, D>>, NoMemory>
    ensures none { IfOk result (λ room. room.items ≡ []) }
    ensures room { IfOk result (λ room. workers * trees ≤ vec_capacity room) }
{
    let Some(all) = workers.checked_mul(trees) else {
        return Err(NoMemory);
    };
    Ok(Vec::with_capacity(machine, all)?)
}

/// Puts the workers' shares after the others.
fn joined<I: MadeBy, D: Ledger>(
    opening: Vec<Share<I, D>>,
    shares: Vec<Share<I, D>>,
) -> Vec<Share<I, D>>
    requires room { length opening.items + length shares.items ≤ vec_capacity opening }
    ensures both { result.items ≡ opening.items ++ shares.items }
    ensures room { vec_capacity opening ≤ vec_capacity result }
{
    let (mut all, mut shares) = (opening, shares);
    let Ok(()) = all.append(&mut shares) else {
        unreachable!()
    };
    all
}

/// Takes the forest from a crew that failed.
fn give_back<R: Wait + Drop, I: MadeBy, D: Ledger>(
    forest: Forest<R, Global, I, D>,
    fault: CrewFault,
) -> UnsharedForest
    ensures late { IsLate result.fault }
    ensures back { ComesBack forest.bounds I.config result }
{
    match forest.into_closed() {
        Ok(forest) => UnsharedForest {
            fault: ShareForestFault::from(fault),
            forest: Ok(forest),
        },
        Err(apart) => UnsharedForest {
            fault: ShareForestFault::OtherRange,
            forest: Err(apart),
        },
    }
}
