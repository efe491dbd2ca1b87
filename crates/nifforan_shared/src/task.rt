//! What a thread has its worker do: a caller's job, with or without a reader.

use crate::job::{Job, ReadingJob};
use crate::reading::Reading;
use bw_crew::Notes;
use bw_procedures::Trail;
use bw_snap::Naming;
use std::sync::Wait;
use std::sync::ledger::Ledger;

/// A job with what else each worker gets for it, its kit.
pub trait Task<K> {
    ghost use Rattle.std.specs.Prelude.{◌≡◌, ◌<◌, ℕ, []};
    ghost use Rattle.bw_crew.specs.Workers.{Promised};

    /// What a worker returns.
    type Output: Drop;

    /// What becomes of the receipts of a worker's steps.
    type Trail: Trail;

    // the kit is one for the worker with this number
    ghost given: { Self → ℕ → K → Type 0 } = { λ task worker kit. Unit {0} };

    // what is promised of a worker's number, of what that worker brings back, and of its trail
    ghost promised: { Self → Promised Self.Output };

    /// Does the part of the worker with this number, from 0 on.
    fn run<W: Notes>(&self, worker: u32, hand: &mut W, kit: K) -> Self::Output
        requires few { worker < 64 }
        requires given { given self.now worker kit }
        requires new { (W.seen hand.old).trail ≡ [] }
        ensures promised { promised self.now worker result (W.seen hand.new).trail };
}

/// A job that is done by the hand alone.
#[derive(Drop)]
pub struct ByHand<'j, J> {
    pub job: &'j J,
}

impl<'j, J: Job> Task<()> for ByHand<'j, J> {
    type Output = J::Output;

    type Trail = J::Trail;

    ghost promised = { λ task. J.promised task.job.now };

    fn run<W: Notes>(&self, worker: u32, hand: &mut W, _kit: ()) -> J::Output {
        self.job.work(worker, hand)
    }
}

/// A job that is done with a reader.
#[derive(Drop)]
pub struct WithReader<'j, J> {
    pub job: &'j J,
}

impl<'j, 't, J: ReadingJob, R: Wait + Copy, N: Naming, D: Ledger> Task<Reading<'t, R, N, D>>
    for WithReader<'j, J> {
    type Output = J::Output;

    type Trail = J::Trail;

    ghost promised = { λ task. J.promised task.job.now };

    fn run<W: Notes>(&self, worker: u32, hand: &mut W, kit: Reading<'t, R, N, D>) -> J::Output {
        let mut reader = kit;
        self.job.work(worker, hand, &mut reader)
    }
}
