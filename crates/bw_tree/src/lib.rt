//! The mapping table shared by workers: its book is the sum of their shares, and a mutex lets each
//! of them take one atomic step at a time.
#![tactic(auto)]

mod booked;
mod fault;
mod keys;
mod made_by;
mod ordered;
mod plot;
mod share;
mod shared;
mod stock;
mod tree;

pub use booked::{Booked, check};
pub use bw_step::{Denied, Proposes};
pub use fault::{MissingShare, NewFault, Unshared};
pub use keys::{AnyKey, Keys};
pub use made_by::MadeBy;
pub use ordered::Ordered;
pub use plot::Plot;
pub use share::{Blanks, Share, Stocked};
pub use shared::Shared;
pub use stock::{Endowment, Parts, Stock, Totals};
pub use tree::{ForestTree, Tree};
