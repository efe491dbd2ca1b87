use crate::refused::Refused;
use thiserror::Error;

/// Why there is no copy of a page.
#[derive(Clone, Copy, Debug, PartialEq, Eq, Error)]
pub enum CopyFault {
    /// The page isn't in a row, or its id is past the end.
    #[error("the page isn't in a row")]
    Absent,
    /// The page was changed since it was seen.
    #[error("the page was changed")]
    Stale,
    #[error("out of memory")]
    NoMemory,
}

/// Why a proposed step wasn't taken.
#[derive(Clone, Copy, Debug, PartialEq, Eq, Hash, Error)]
pub enum Denied {
    /// The table refused it.
    #[error("{0}")]
    Refused(Refused),
    #[error("out of memory")]
    NoMemory,
}
