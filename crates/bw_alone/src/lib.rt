//! The worker that has a table for itself: it takes each atomic step at once, without a lock. The
//! table is lent to it, or its own.
#![tactic(auto)]

mod held;
mod holding;
mod sole;

pub use holding::{Does, Holds, Own};
pub use sole::{Alone, Owner, Sole};
