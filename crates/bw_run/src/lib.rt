//! Runs: the rows of a trace, done by worker threads on one shared tree or on a forest, with the
//! replies, and with histories that were audited.
#![tactic(auto)]

mod acts;
mod answers;
mod beside;
mod checks;
mod ending;
mod fault;
mod forest;
mod judgement;
mod kits;
mod looks;
mod merging;
mod plan;
mod progress;
mod rows;
mod runner;
mod stopping;

pub use beside::count_beside;
pub use bw_procedures::{Act, Reply, do_act};
pub use bw_texts::{Row, is_trace_for};
pub use ending::Finished;
pub use fault::RunFault;
pub use forest::{FinishedForest, run_forest};
pub use progress::Progress;
pub use runner::{run, run_counted};
