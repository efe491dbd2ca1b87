//! Traces of what workers do, and histories of what they were answered, read and written row by
//! row.
#![tactic(auto)]

mod fault;
mod found;
mod history;
mod number;
mod output;
mod part;
mod text;
mod trace;

pub use bw_procedures::Act;
pub use fault::{OutFault, TextFault};
pub use found::row_fields;
pub use history::{History, MOST_HISTORY_ROWS, read_history, write_history};
pub use part::Part;
pub use trace::{
    MOST_TRACE_ROWS, Row, Variation, is_trace_for, make, make_varied, read_trace, write_trace,
};
