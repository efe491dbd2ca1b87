//! What is left of a forest once all its workers have ended.

use crate::returned::Returned;
use bw_forest::ClosedForest;
use bw_procedures::GivenUp;
use std::alloc::Global;

/// What is left of a forest once all its workers have ended.
#[derive(Drop)]
pub struct ForestOutcome<O, L = GivenUp> {
    /// The trees, in the order of their ranges.
    pub forest: ClosedForest<Global>,
    /// What each worker returned, by the workers' numbers.
    pub workers: Vec<Returned<O, L>>,
}
