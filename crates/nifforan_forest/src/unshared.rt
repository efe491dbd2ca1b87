use crate::fault::ShareForestFault;
use bw_forest::{ClosedForest, NotClosed};
use std::alloc::Global;

/// A closed forest that wasn't shared, and why.
#[derive(Drop)]
pub struct UnsharedForest {
    pub fault: ShareForestFault,
    /// The forest, or, only with [`ShareForestFault::OtherRange`], its ranges and trees.
    pub forest: Result<ClosedForest<Global>, NotClosed<Global>>,
}
