use thiserror::Error;

/// Why there are no such bounds: the first that applies, in the order in which they stand here.
#[derive(Clone, Copy, Debug, PartialEq, Eq, Error)]
pub enum BadBounds {
    /// There are no trees, or more than [`MAX_TREES`](crate::MAX_TREES).
    #[error("bad number of trees")]
    BadTrees,
    /// The first range doesn't begin at 0.
    #[error("the first range does not begin at 0")]
    NotFromZero,
    /// A range doesn't begin above the one before it.
    #[error("the ranges do not rise")]
    NotRising,
    #[error("out of memory")]
    NoMemory,
}

/// Why tables don't make a closed forest: the first that applies, in the order in which they stand
/// here.
#[derive(Clone, Copy, Debug, PartialEq, Eq, Error)]
pub enum BadTables {
    /// There are more tables than ranges, or fewer.
    #[error("not a table for each range")]
    BadNumber,
    /// The table with this number is the first that was made by another configuration than table 0.
    #[error("table {0} was made by another configuration")]
    OtherConfig(usize),
    /// The table with this number is the first that has a pair out of its range.
    #[error("table {0} has a pair out of its range")]
    PairOutside(usize),
    #[error("out of memory")]
    NoMemory,
}

/// Why a forest can't be closed.
#[derive(Clone, Copy, Debug, PartialEq, Eq, Error)]
pub enum ForestFault {
    /// Fewer shares than all were gathered, so nothing is known of their sum.
    #[error("a share is missing")]
    MissingShare,
    /// A tree has another range than the one that it was made for. No function of this crate puts
    /// another one there, so a forest that was made and opened by it never meets this. But of what lies
    /// under a lock only what the type says is known outside, so closing looks at each range.
    #[error("a tree has another range")]
    OtherRange,
}
