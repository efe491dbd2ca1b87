use bw_keys::Key;
use bw_step::Step;
use std::alloc::Global;

/// What a worker does: it proposes a step, or looks at a key.
#[derive(Drop)]
pub enum Deed {
    Step(Step<Global>),
    Look(Key),
}

/// One worker's turn in a run.
#[derive(Drop)]
pub struct Event {
    /// The worker, counted from 0.
    pub worker: u32,
    pub act: Deed,
}
