//! Traces: what workers do, row by row.

mod act;
mod made;
mod read;
mod row;
mod varied;
mod write;

pub use made::make;
pub use read::{MOST_TRACE_ROWS, read_trace};
pub use row::{Row, is_trace_for};
pub use varied::{Variation, make_varied};
pub use write::write_trace;
