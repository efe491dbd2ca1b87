use std::alloc::{AllocError, AllocFailed};
use thiserror::Error;

/// Memory was asked for and refused.
#[derive(Clone, Copy, Debug, PartialEq, Eq, Error)]
#[error("out of memory")]
pub struct NoMemory;

impl From<AllocError> for NoMemory {
    fn from(_: AllocError) -> NoMemory {
        NoMemory
    }
}

impl<T: Drop> From<AllocFailed<T>> for NoMemory {
    fn from(_: AllocFailed<T>) -> NoMemory {
        NoMemory
    }
}

/// Why the given entries make no base page.
#[derive(Clone, Copy, Debug, PartialEq, Eq, Error)]
pub enum BaseFault {
    /// The range is empty, the keys don't rise strictly, or a key lies outside the range.
    #[error("the entries are no page of this range")]
    BadEntries,
    #[error("out of memory")]
    NoMemory,
}
