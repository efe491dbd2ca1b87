//! Shares a tree among worker threads in one call: makes the tree, starts a thread for each worker,
//! joins them, and returns the table.
#![tactic(auto)]

mod each;
mod fault;
mod hands;
mod job;
mod outcome;
mod reading;
mod sharing;
mod task;

pub use bw_crew::{CrewFault, Notes, Worker};
pub use bw_delta::NoMemory;
pub use bw_keys::{BadConfig, Config, Fence, Field, Key, MAX_WORKERS};
pub use bw_procedures::{
    Calls, Cleared, Del, Done, Fault, GivenUp, Packed, Put, Set, Slice, Steps, Trail,
};
pub use bw_snap::{Closed, MAX_READERS, ScanFault};
pub use bw_step::Receipt;
pub use bw_table::Table;
pub use bw_tree::Unshared;
pub use bw_work::{Pages, Queries};
pub use each::Each;
pub use fault::ShareFault;
pub use hands::{Gathered, work_all};
pub use job::{Job, ReadingJob};
pub use outcome::Outcome;
pub use reading::{Reading, Reads, readings_of};
pub use sharing::{share, share_table, share_with_readers};
pub use task::Task;
