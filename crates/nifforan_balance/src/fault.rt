//! Why a forest wasn't made anew.

use bw_procedures::Fault;
use thiserror::Error;

/// Why no balanced forest was made.
#[derive(Clone, Copy, Debug, PartialEq, Eq, Error)]
pub enum BalanceFault {
    /// There are no trees, or more than [`MAX_TREES`](crate::MAX_TREES).
    #[error("bad number of trees")]
    BadTrees,
    /// Memory was short, or a pair couldn't be put: with `TableFull`, a tree's part of the pairs takes
    /// each page that the configuration allows.
    #[error("{0}")]
    Put(Fault),
}
