//! What the tests of several crates share.
#![tactic(auto)]

mod configs;
mod leaves;
mod meeting;

pub use configs::{LARGE, SMALL};
pub use leaves::partition_the_keys;
pub use meeting::Meeting;
