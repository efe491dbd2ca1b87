//! Shares a forest among worker threads in one call: one ordered map over many trees, each with a
//! range of the keys and a lock of its own, so that workers seldom meet.
#![tactic(auto)]

mod across;
mod crew;
mod fault;
mod fences;
mod hand;
mod hands;
mod job;
mod outcome;
mod returned;
mod scan;
mod sharing;
mod unshared;
mod worker;

pub use bw_delta::NoMemory;
pub use bw_forest::{
    BadBounds, BadTables, Bounds, ClosedForest, ClosedTree, ForestFault, MAX_TREES, NotClosed,
    Unclosed,
};
pub use bw_keys::{BadConfig, Config, Fence, Field, Key, MAX_WORKERS, Range};
pub use bw_procedures::{Cleared, Del, Done, Fault, GivenUp, Put, Set, Trail};
pub use bw_step::Receipt;
pub use bw_table::Table;
pub use fault::ShareForestFault;
pub use hand::{Divides, ForestHand};
pub use job::ForestJob;
pub use outcome::ForestOutcome;
pub use returned::Returned;
pub use sharing::{share_closed_forest, share_forest};
pub use unshared::UnsharedForest;
pub use worker::ForestWorker;
