//! What the workers of a shared tree do.

ghost use Rattle.std.specs.Prelude.{◌≡◌, ◌<◌, []};
ghost use Rattle.bw_crew.specs.Workers.{Promised};

use crate::reading::Reads;
use bw_crew::Worker;
use bw_procedures::Trail;

/// What each worker of a tree does, in a thread of its own.
pub trait Job {
    /// What a worker returns.
    type Output: Drop;

    /// What becomes of the receipts of a worker's steps. `Vec<Receipt>` keeps all of them, about 40
    /// bytes each; [`GivenUp`](crate::GivenUp) keeps none, for a job whose receipts nobody needs.
    type Trail: Trail;

    // what the job promises of a worker's number, of what that worker brings back, and of its trail
    ghost promised: { Self → Promised Self.Output } = { λ job worker output trail. Unit {0} };

    /// Does the part of the worker with this number, from 0 on, with a hand on the tree. It may end
    /// early, as by a `?`: the hand stays with the tree, so nothing is lost.
    fn work<W: Worker>(&self, worker: u32, hand: &mut W) -> Self::Output
        requires few { worker < 64 }
        requires new { (W.seen hand.old).trail ≡ [] }
        ensures promised { promised self.now worker result (W.seen hand.new).trail };
}

/// What each worker of a tree with readers does, in a thread of its own.
pub trait ReadingJob {
    /// What a worker returns.
    type Output: Drop;

    /// What becomes of the receipts of a worker's steps. `Vec<Receipt>` keeps all of them, about 40
    /// bytes each; [`GivenUp`](crate::GivenUp) keeps none, for a job whose receipts nobody needs.
    type Trail: Trail;

    // what the job promises of a worker's number, of what that worker brings back, and of its trail
    ghost promised: { Self → Promised Self.Output } = { λ job worker output trail. Unit {0} };

    /// Does the part of the worker with this number, from 0 on, with a hand on the tree and a
    /// reader of what is published. It may end early, as by a `?`: the hand stays with the tree, so
    /// nothing is lost.
    fn work<W: Worker, R: Reads>(&self, worker: u32, hand: &mut W, reader: &mut R) -> Self::Output
        requires few { worker < 64 }
        requires new { (W.seen hand.old).trail ≡ [] }
        ensures promised { promised self.now worker result (W.seen hand.new).trail };
}
