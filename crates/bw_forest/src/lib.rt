//! A forest: trees by ranges of keys, each under a lock of its own, and one exact count over all.
#![tactic(auto)]

mod bounds;
mod closed;
mod closed_tree;
mod fault;
mod fitting;
mod forest;
mod given_back;
mod limits;

pub use bounds::Bounds;
pub use closed::ClosedForest;
pub use closed_tree::ClosedTree;
pub use fault::{BadBounds, BadTables, ForestFault};
pub use forest::Forest;
pub use given_back::{NotClosed, Unclosed, Unopened};
pub use limits::MAX_TREES;
