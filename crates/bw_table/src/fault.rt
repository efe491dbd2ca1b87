use bw_keys::BadConfig;
use thiserror::Error;

/// Why there is no new table.
#[derive(Clone, Copy, Debug, PartialEq, Eq, Error)]
pub enum NewFault {
    /// A field of the configuration is out of its range.
    #[error("{0}")]
    BadConfig(BadConfig),
    #[error("out of memory")]
    NoMemory,
}
