//! The calls of a tree's worker: put, set, delete, get, a cursor and the removal of a range, each
//! written once over the atomic steps that the worker takes and that others may come between
//! (Levandoski et al., "The Bw-Tree", ICDE 2013, "Structure Modifications").
#![tactic(auto)]

mod account;
mod act;
mod calls;
mod clearing;
mod consolidation;
mod cursor;
mod effort;
mod fault;
mod helping;
mod lookup;
mod offer;
mod packed;
mod past;
mod reply;
mod round;
mod steps;
mod tending;
mod trail;
mod walk;
mod wish;
mod writing;

pub use account::{Account, is_consolidated_behind};
pub use act::{Act, do_act};
pub use calls::Calls;
pub use fault::Fault;
pub use packed::Packed;
pub use reply::{Cleared, Del, Done, Put, Reply, Set, Slice};
pub use steps::{Ends, Keep, Steps};
pub use trail::{GivenUp, Trail};
