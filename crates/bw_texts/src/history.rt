//! Histories: the receipts of workers, row by row, and the pairs of the final map.

mod line;
mod read;
mod write;

pub use read::{History, MOST_HISTORY_ROWS, read_history};
pub use write::write_history;
