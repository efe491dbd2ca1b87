//! What a worker does alone, or by hand on a tree under its lock.

ghost use Rattle.std.specs.Prelude.{◌≡◌};
ghost use Rattle.bw_tree.specs.Trees.{OpensFor};

use crate::acts::{ACTS, act_all};
use crate::ending::{Deviation, Ending, Stop, hold};
use crate::plain::Plain;
use bw_audit::{Opening, Verdict, audit_from, is_ascending};
use bw_keys::{Config, Key};
use bw_step::{Receipt, Step, Survey};
use bw_table::Table;
use bw_tree::{Blanks, MadeBy, Share, Tree};
use bw_work::{Alone, Hand, Open, Steps};
use std::alloc::Global;
use std::marker::Brand;
use std::sync::Wait;
use std::sync::ledger::Ledger;
use test_kit::{SMALL, partition_the_keys};

/// What a worker is to do.
pub(crate) trait Task {
    type Left: Drop;

    fn work<S: Steps<Global, Step<Global>>>(&self, steps: &mut S) -> Self::Left;
}

/// What is left of a task, its worker and its table.
#[derive(Drop)]
pub(crate) struct Done<L> {
    pub(crate) left: L,
    pub(crate) trail: Vec<Receipt>,
    pub(crate) table: Table<Global>,
}

/// Has a worker do the task that has its table for itself.
pub(crate) fn work_alone<T: Task>(
    machine: Global,
    config: Config,
    task: &T,
) -> Result<Done<T::Left>, Stop> {
    let Ok(mut table) = Table::new(machine, machine, config) else {
        return Err(Stop::Memory);
    };
    let mut worker = Alone::new(machine, machine, &mut table);
    let left = task.work(&mut worker);
    let trail = worker.finish();
    Ok(Done { left, trail, table })
}

/// Does the task on the tree, with a share that it takes from the list and puts back. Returns what is left, and the
/// worker's trail.
fn work_on<R: Wait + Copy, I: MadeBy, D: Ledger, T: Task>(
    machine: Global,
    tree: &Tree<R, Global, I, D>,
    shares: &mut Vec<Share<I, D>>,
    task: &T,
) -> Result<(T::Left, Vec<Receipt>), Stop> {
    let Some(share) = shares.pop() else {
        return Err(Stop::Broken("a tree has a share for its worker"));
    };
    let mut hand = Hand::new(machine, machine, tree, share, 0, &Open);
    let left = task.work(&mut hand);
    let (share, trail) = hand.finish();
    // The list has had room for the share.
    match shares.push(share) {
        Ok(()) => Ok((left, trail)),
        Err(_) => Err(Stop::Memory),
    }
}

fn work_by_hand_over<R: Wait + Copy, I: MadeBy, D: Ledger, T: Task>(
    rt: R,
    machine: Global,
    config: Config,
    blanks: Blanks,
    task: &T,
) -> Result<Done<T::Left>, Stop>
    requires ledgers { OpensFor I.Ledger I.config D.Ledger config blanks }
{
    let Ok((tree, mut shares)) = Tree::<R, Global, I, D>::new(rt, machine, machine, config, blanks)
    else {
        return Err(Stop::Memory);
    };
    let (left, trail) = work_on(machine, &tree, &mut shares, task)?;
    match tree.close(shares) {
        Ok(table) => Ok(Done { left, trail, table }),
        Err(_) => Err(Stop::Broken("a tree is closed by all its shares")),
    }
}

/// Has a worker with a hand on a tree do the task.
pub(crate) fn work_by_hand<R: Wait + Copy, T: Task>(
    rt: R,
    machine: Global,
    config: Config,
    task: &T,
) -> Result<Done<T::Left>, Stop> {
    work_by_hand_over::<R, Brand, Brand, T>(rt, machine, config, Blanks::new(1), task)
}

/// Returns what a new table has.
pub(crate) fn no_opening(machine: Global) -> Opening {
    Opening {
        number: 0,
        pairs: Vec::new(machine),
    }
}

/// Returns the pairs of a table that was opened so. Fails unless its book counts them, its leaves
/// partition the keys, and the audit explains the trails since then.
pub(crate) fn audited(
    machine: Global,
    opening: &Opening,
    table: &Table<Global>,
    trails: &[Vec<Receipt>],
) -> Result<Vec<(Key, u64)>, Stop> {
    let pairs = table.pairs(machine)?;
    let Survey { leaves, book, .. } = table.survey(machine)?;
    let counted = book.inserted.checked_sub(book.removed);
    hold(
        counted == Some(pairs.len() as u64),
        "the book counts the pairs",
    )?;
    hold(partition_the_keys(&leaves), "the leaves partition the keys")?;
    if !is_ascending(&pairs) {
        return Err(Stop::Broken("the pairs' keys rise"));
    }
    let verdict = audit_from(machine, opening, trails, &pairs)?;
    hold(verdict == Verdict::Yes, "the audit says yes")?;
    Ok(pairs)
}

/// Fails unless the table has the map's pairs, in leaves that partition the keys and by its book,
/// and the audit explains the trail.
pub(crate) fn judge(
    machine: Global,
    table: &Table<Global>,
    trail: Vec<Receipt>,
    plain: &Plain,
) -> Result<(), Stop> {
    let pairs = audited(machine, &no_opening(machine), table, &[trail])?;
    hold(plain.has(&pairs), "the pairs are the script's")
}

/// All acts, with copies of leaves in this memory.
#[derive(Drop)]
struct Acts {
    machine: Global,
}

impl Task for Acts {
    type Left = Result<(Ending, Plain), Deviation>;

    fn work<S: Steps<Global, Step<Global>>>(&self, steps: &mut S) -> Self::Left {
        let mut plain = Plain::EMPTY;
        let ending = act_all(steps, self.machine, &ACTS, &mut plain)?;
        Ok((ending, plain))
    }
}

fn judge_acts(
    machine: Global,
    done: Result<Done<Result<(Ending, Plain), Deviation>>, Stop>,
) -> Result<Ending, Stop> {
    let Done { left, trail, table } = done?;
    let (ending, plain) = left?;
    judge(machine, &table, trail, &plain)?;
    Ok(ending)
}

/// The trial of a worker that has its table for itself.
pub(crate) fn alone(machine: Global) -> Result<Ending, Stop> {
    judge_acts(machine, work_alone(machine, SMALL, &Acts { machine }))
}

/// The trial of a worker on a tree under its lock.
pub(crate) fn by_hand<R: Wait + Copy>(rt: R, machine: Global) -> Result<Ending, Stop> {
    judge_acts(machine, work_by_hand(rt, machine, SMALL, &Acts { machine }))
}
