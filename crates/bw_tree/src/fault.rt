use bw_keys::BadConfig;
use bw_table::Table;
use std::alloc::Allocator;
use thiserror::Error;

/// Why there is no new tree: the first fault that applies, in the order in which they stand here.
#[derive(Clone, Copy, Debug, PartialEq, Eq, Error)]
pub enum NewFault {
    /// A field of the configuration is out of its range.
    #[error("{0}")]
    BadConfig(BadConfig),
    /// There are no workers, or more than `MAX_WORKERS`.
    #[error("bad workers")]
    BadWorkers,
    #[error("out of memory")]
    NoMemory,
}

/// A table that isn't shared, and why.
#[derive(Drop)]
pub struct Unshared<A: Allocator + Copy, F = NewFault> {
    pub fault: F,
    pub table: Table<A>,
}

/// Fewer shares than all were gathered, so nothing is known of their sum.
#[derive(Clone, Copy, Debug, PartialEq, Eq, Error)]
#[error("a share is missing")]
pub struct MissingShare;
