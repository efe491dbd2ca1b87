//! What the workers of a forest do.

use crate::hand::ForestHand;
use crate::worker::ForestWorker;
use bw_procedures::Trail;

/// What each worker of a forest does, in a thread of its own.
pub trait ForestJob {
    ghost use Rattle.std.specs.Prelude.{◌≡◌, ◌<◌, [], All, map};
    ghost use Rattle.nifforan_forest.specs.Workers.{PromisedOf};

    /// What a worker returns.
    type Output: Drop;

    /// What becomes of the receipts of a worker's steps, at each tree. [`GivenUp`](crate::GivenUp)
    /// keeps none; `Vec<Receipt>` keeps all of them, about 40 bytes each, for an auditor.
    type Trail: Trail;

    // what the job promises of the trees' bounds, of a worker's number, of what that worker brings
    // back, and of its trails, by the trees
    ghost promised: { Self → PromisedOf Self.Output } = { λ job bounds worker it trails. Unit {0} };

    /// Does the part of the worker with this number, from 0 on, with a hand on each tree. It may end
    /// early, as by a `?`: the hands stay with the forest, so nothing is lost.
    fn work<H: ForestHand>(&self, worker: u32, forest: &mut ForestWorker<'_, H>) -> Self::Output
        requires few { worker < 64 }
        requires new { All (λ hand. (H.seen hand).trail ≡ []) forest.old.hands.items }
        ensures promised { promised self.now H.bounds worker result
            (map (λ hand. (H.seen hand).trail) forest.new.hands.items) };
}
