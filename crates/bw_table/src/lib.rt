//! The mapping table: it holds the delta chain of each page id, and takes each change as one checked
//! step.
#![tactic(auto)]

mod book;
mod copy;
mod fault;
mod free;
mod fresh;
mod get;
mod get_many;
mod guide;
mod leaf;
mod link;
mod listing;
mod order;
mod pages;
mod rest;
mod slot;
mod steps;
mod survey;
mod table;
mod visit;

pub use bw_keys::Wished;
pub use bw_law::MAX_PAGES;
pub use bw_step::{
    Action, Book, Consolidate, CopyFault, Delete, Go, Grow, Insert, Kind, Leaf, Look, Mark, Merge,
    Modify, Next, Performed, Place, Receipt, Refused, Reshaping, Split, Stage, Step, Summary,
    Survey, TermAdd, TermDelete, Todo, Unperformed, View,
};
pub use fault::NewFault;
pub use leaf::LeafRef;
pub use slot::SLOT_BYTES;
pub use table::Table;
