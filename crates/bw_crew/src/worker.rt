//! The worker that a job is given.

use bw_delta::NoMemory;
use bw_keys::Key;
use bw_procedures::{Calls, Steps};
use bw_step::{Look, Step};
use bw_work::Queries;
use std::alloc::Global;

/// One of the workers that share a tree. It makes the calls of [`Calls`] by atomic steps under the
/// tree's lock, and steps of other workers may come between any two of them. It asks the questions
/// of [`Queries`], and walks along the map by [`Pages`](crate::Pages).
///
/// A fault in place of a reply says that the map is as the call found it. The worker keeps its share
/// and may go on.
pub trait Worker: Calls<Global> + Queries {}

impl<W: Calls<Global> + Queries> Worker for W {}

/// A worker that also keeps looks which its caller had elsewhere.
pub trait Notes: Steps<Global, Step<Global>> + Queries {
    ghost use Rattle.std.specs.Prelude.{◌≡◌, OnOk, OnErr};
    ghost use Rattle.bw_crew.specs.Workers.{AddsNote};

    /// Adds a look to the trail, as a receipt. Changes nothing if memory is short.
    fn note(&mut self, key: Key, look: Look) -> Result<(), NoMemory>
        ensures seen { OnOk result (AddsNote key look (Self.seen self.old) (Self.seen self.new)) }
        ensures unseen { OnErr result (Self.seen self.new ≡ Self.seen self.old) };
}
