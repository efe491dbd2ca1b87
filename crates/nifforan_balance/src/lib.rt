//! Closed forests made anew, so that each tree has as many pairs as each other.
#![tactic(auto)]

mod balancing;
mod fault;

pub use balancing::balanced;
pub use bw_forest::{ClosedForest, MAX_TREES};
pub use bw_procedures::Fault;
pub use fault::BalanceFault;
