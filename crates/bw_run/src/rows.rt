//! The rows of a trace, done by a crew.

ghost use Rattle.std.specs.Prelude.{◌≡◌, ◌<◌, ◌≤◌, IfOk, IfErr, All, length};
ghost use Rattle.std.specs.List.{AllByRecursion};
ghost use Rattle.bw_step.specs.Trails.{lists_of};
ghost use Rattle.bw_tree.specs.Shares.{no_changes};
ghost use Rattle.bw_run.specs.Faults.{StopsWithin};
ghost use Rattle.bw_run.specs.Answers.{AreAnswered, columns_of, AreAnswersTo};
ghost use Rattle.bw_run.specs.Rows.{acts_of};

use crate::acts::do_acts;
use crate::answers::Answers;
use crate::fault::RunFault;
use crate::kits::{Kit, kits_for};
use crate::looks::Looks;
use crate::progress::Progress;
use crate::stopping::check_stops;
use bw_step::{Receipt, Step};
use bw_texts::Row;
use bw_tree::{Ordered, Share};
use bw_work::Gate;
use nifforan_shared::{Gathered, Notes, Task, work_all};
use std::alloc::Global;
use std::sync::Wait;
use std::sync::ledger::Ledger;
use std::thread::Threads;

/// The rows of a trace as a crew's task: each worker does its own.
#[derive(Drop)]
struct Rows<'r> {
    rows: &'r [Row],
    progress: &'r Progress,
}

impl<'r, L: Looks + Drop> Task<Kit<L>> for Rows<'r> {
    type Output = Answers;

    // the audit asks for all of them
    type Trail = Vec<Receipt>;

    ghost given = { λ task worker kit. kit.acts.items ≡ acts_of worker task.rows.now };

    ghost promised = { λ task worker answers trail.
        AreAnswersTo L.may_close (acts_of worker task.rows.now) answers trail };

    fn run<W: Notes>(&self, _worker: u32, hand: &mut W, kit: Kit<L>) -> Answers {
        let (acts, mut replies, mut reader) = (kit.acts, kit.replies, kit.reader);
        let stop = do_acts(hand, &mut reader, &acts, &mut replies, self.progress).err();
        Answers { replies, stop }
    }
}

/// Does the rows on the tree by a worker for each share, and gathers what they bring back. The
/// first readers are the first workers'. If some of the workers stopped, the fault is that of the
/// one with the least number.
pub(crate) fn do_rows<
    I: Ledger + Send + Sync,
    D: Ledger + Send + Sync,
    L: Looks + Drop + Send,
    T: Ordered<Global, Step<Global>, Insertions = I, Removals = D> + Sync,
    R: Threads + Wait + Sync,
    G: Gate + Sync,
>(
    rt: &R,
    machine: Global,
    tree: &T,
    shares: Vec<Share<I, D>>,
    readers: Vec<L>,
    rows: &[Row],
    gate: &G,
    progress: &Progress,
) -> Result<Gathered<I, D, Answers>, RunFault>
    requires few { length shares.items ≤ 64 }
    requires new { All (λ share. share ≡ no_changes) shares.items }
    requires workers { AllByRecursion (λ row. row.worker < length shares.items) rows.now }
    ensures count { IfOk result (λ all. length all.shares.items ≡ length shares.items) }
    ensures answered { IfOk result (λ all.
        AreAnswered rows.now (columns_of all.outputs.items) (lists_of all.trails.items)) }
    ensures fault { IfErr result (StopsWithin L.may_close (length shares.items) rows.now) }
{
    let kits = kits_for(machine, shares.len() as u32, rows, readers)?;
    let task = Rows { rows, progress };
    let all = work_all(rt, machine, tree, gate, &task, shares, kits)?;
    check_stops::<L>(rows, &all.outputs)?;
    Ok(all)
}
