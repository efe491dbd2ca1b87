//! A job for each worker.

ghost use Rattle.bw_crew.specs.Workers.{promised_of_each};

use crate::job::{Job, ReadingJob};
use crate::reading::Reads;
use bw_crew::Worker;

/// Jobs by the workers' numbers: worker `i` does the job at `i`, and returns its output. A worker
/// past the last job does nothing, and returns `None`.
///
/// If the workers differ in kind, make `J` an enum with a variant for each kind of work.
#[derive(Drop)]
pub struct Each<'j, J> {
    pub jobs: &'j [J],
}

impl<'j, J: Job> Job for Each<'j, J> {
    type Output = Option<J::Output>;

    type Trail = J::Trail;

    // the promise of the worker's own job
    ghost promised = { λ each. promised_of_each J.promised each.jobs.now };

    fn work<W: Worker>(&self, worker: u32, hand: &mut W) -> Option<J::Output> {
        let job = self.jobs.get(worker as usize)?;
        Some(job.work(worker, hand))
    }
}

impl<'j, J: ReadingJob> ReadingJob for Each<'j, J> {
    type Output = Option<J::Output>;

    type Trail = J::Trail;

    // the promise of the worker's own job
    ghost promised = { λ each. promised_of_each J.promised each.jobs.now };

    fn work<W: Worker, R: Reads>(
        &self,
        worker: u32,
        hand: &mut W,
        reader: &mut R,
    ) -> Option<J::Output> {
        let job = self.jobs.get(worker as usize)?;
        Some(job.work(worker, hand, reader))
    }
}
