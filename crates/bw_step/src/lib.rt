//! The plain types of a mapping table's calls: places and views of pages, proposed steps, receipts
//! of accepted ones, and the reasons to refuse a step.
#![tactic(auto)]

mod action;
mod fault;
mod place;
mod proposes;
mod receipt;
mod refused;
mod step;
mod steps;
mod survey;
mod view;

pub use action::{Action, Performed, Reshaping, Unperformed};
pub use fault::{CopyFault, Denied};
pub use place::{Go, Next, Place, Todo};
pub use proposes::Proposes;
pub use receipt::{Kind, Receipt};
pub use refused::Refused;
pub use step::Step;
pub use steps::{
    Consolidate, Delete, Grow, Insert, Mark, Merge, Modify, Split, TermAdd, TermDelete,
};
pub use survey::{Book, Leaf, Summary, Survey};
pub use view::{Look, Stage, View};
