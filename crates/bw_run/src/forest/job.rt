//! The rows of a trace, done by the workers of a forest.

ghost use Rattle.std.specs.Prelude.{IfOk, map, [], slice_index_or};
ghost use Rattle.bw_run.specs.ForestAnswers.{AreForestAnswersTo};

use crate::answers::Answers;
use crate::forest::acts::do_acts;
use crate::progress::Progress;
use bw_delta::NoMemory;
use bw_procedures::Act;
use bw_step::Receipt;
use nifforan_forest::{ForestHand, ForestJob, ForestWorker};
use std::alloc::Global;

/// Each worker's acts as a forest's job: each worker does its own.
#[derive(Drop)]
pub(crate) struct ForestRows<'r> {
    pub(crate) machine: Global,
    pub(crate) plan: &'r [Vec<Act>],
    pub(crate) progress: &'r Progress,
}

impl<'r> ForestJob for ForestRows<'r> {
    /// Fails if there is no memory for the replies.
    type Output = Result<Answers, NoMemory>;

    // the audit asks for all of them
    type Trail = Vec<Receipt>;

    ghost promised = { λ job bounds worker output trails. IfOk output (AreForestAnswersTo bounds
        (slice_index_or (map (λ acts. acts.items) job.plan.now) worker []) trails) };

    fn work<H: ForestHand>(
        &self,
        worker: u32,
        forest: &mut ForestWorker<'_, H>,
    ) -> Result<Answers, NoMemory> {
        let Some(acts) = self.plan.get(worker as usize) else {
            return Ok(Answers {
                replies: Vec::new(self.machine),
                stop: None,
            });
        };
        let mut replies = Vec::with_capacity(self.machine, acts.len())?;
        let stop = do_acts(self.machine, forest, acts, &mut replies, self.progress).err();
        Ok(Answers { replies, stop })
    }
}
