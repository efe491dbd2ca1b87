//! The crew of a tree, or of a forest: a thread for each worker, and the workers' hands, whose shares are
//! the sums of their trails.
#![tactic(auto)]

mod crew;
mod fault;
mod member;
mod worker;

pub use crew::{Part, Worked, run_all};
pub use fault::CrewFault;
pub use member::Member;
pub use worker::{Notes, Worker};
