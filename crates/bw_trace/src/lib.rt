//! The program, over a reader and two writers. Exports the names of texts and of runs.
#![tactic(auto)]

mod program;

pub use bw_audit::Verdict;
pub use bw_run::{Finished, FinishedForest, Progress, Reply, RunFault, run, run_forest};
pub use bw_texts::{
    Act, History, MOST_HISTORY_ROWS, MOST_TRACE_ROWS, OutFault, Part, Row, TextFault, is_trace_for,
    make, read_history, read_trace, write_history, write_trace,
};
pub use program::{command, command_watched, tell_run_fault};
