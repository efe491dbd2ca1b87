//! The workers of a tree: one that has its table for itself, and one that shares its tree with
//! others. Each carries out calls as a series of atomic steps.
#![tactic(auto)]

mod calls;
mod gate;
mod hand;
mod pages;
mod queries;

pub use bw_alone::Alone;
pub use bw_procedures::{
    Act, Calls, Cleared, Del, Done, Ends, Fault, GivenUp, Keep, Packed, Put, Reply, Set, Slice,
    Steps, Trail, do_act,
};
pub use calls::{clear, delete, get, help, page_from, put, set, tend};
pub use gate::{Gate, Open};
pub use hand::Hand;
pub use pages::Pages;
pub use queries::Queries;
