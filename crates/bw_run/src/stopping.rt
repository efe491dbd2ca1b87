//! Which worker stopped, and at which row.

ghost use Rattle.std.specs.Prelude.{◌≡◌, ◌-◌, ◌<◌, ℕ, Bool, None, OnOk, IfErr, All, length, take};
ghost use Rattle.bw_crew.specs.Workers.{ByNumber};
ghost use Rattle.bw_run.specs.Answers.{StopsIn};
ghost use Rattle.bw_run.specs.Faults.{StopsWithin};
ghost use Rattle.bw_run.specs.Rows.{IsRowOf, acts_of};
ghost use Rattle.bw_run.specs.Stops.{MayStop};

use crate::answers::{Answers, Stop};
use crate::fault::RunFault;
use crate::looks::Looks;
use bw_texts::Row;

/// Fails if a worker stopped. If several did, the fault is that of the least number.
pub(crate) fn check_stops<L: Looks>(rows: &[Row], answers: &[Answers]) -> Result<(), RunFault>
    requires { ByNumber (λ worker. StopsIn L.may_close (acts_of worker rows.now)) 0 answers.now }
    ensures all { OnOk result (All (λ each. each.stop ≡ None) answers.now) }
    ensures fault { IfErr result (StopsWithin L.may_close (length answers.now) rows.now) }
{
    for worker in 0..answers.len() {
        check_stop::<L>(rows, worker, &answers[worker])?;
    }
    Ok(())
}

/// Fails if the worker stopped.
fn check_stop<L: Looks>(rows: &[Row], worker: usize, answers: &Answers) -> Result<(), RunFault>
    requires { StopsIn L.may_close (acts_of worker rows.now) answers.now }
    ensures none { OnOk result (answers.now.stop ≡ None) }
    ensures fault { IfErr result (λ fault. (workers : ℕ) → worker < workers
        → StopsWithin L.may_close workers rows.now fault) }
{
    match answers.stop {
        None => Ok(()),
        Some(stop) => Err(fault_of(rows, worker, answers.replies.len(), stop)),
    }
}

/// Returns the fault of a run in which the worker stopped at the row of its own that comes after
/// `before` others.
fn fault_of(rows: &[Row], worker: usize, before: usize, stop: Stop) -> RunFault
    requires { before < length (acts_of worker rows.now) }
    ensures { (may_close : Bool) (workers : ℕ) → MayStop may_close stop → worker < workers
        → StopsWithin may_close workers rows.now result }
{
    match stop {
        Stop::Fault(fault) => RunFault::Stopped(worker, row_number(rows, worker, before), fault),
        Stop::Closed => RunFault::NoReader,
    }
}

/// Returns the number, counted from 1, of the worker's row that comes after `before` others of its
/// own.
fn row_number(rows: &[Row], worker: usize, before: usize) -> usize
    requires { before < length (acts_of worker rows.now) }
    ensures own { IsRowOf rows.now worker result }
    ensures before { length (acts_of worker (take (result - 1) rows.now)) ≡ before }
{
    let mut left = before;
    for place in 0..rows.len() {
        if rows[place].worker as usize == worker {
            if left == 0 {
                return place + 1;
            }
            left -= 1;
        }
    }
    unreachable!()
}
