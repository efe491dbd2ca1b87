//! An ordered map from u64 keys to u64 values, and everything that its callers need.
#![tactic(auto)]

mod at_once;
mod back;
mod bounds;
mod change;
mod compare;
mod edge;
mod ends;
mod fill;
mod in_place;
mod iter;
mod map;
mod pairs;
mod reserve;
mod retain;
mod room;
mod run;
mod sorted;
mod update;
mod usual;
mod worker;

pub use bw_delta::NoMemory;
pub use bw_keys::{BadConfig, Config, Fence, Field, Key};
pub use bw_procedures::{Cleared, Del, Done, Fault, Put, Set};
pub use bw_table::{MAX_PAGES, NewFault, Table};
pub use change::{CompareAndSet, Upsert};
pub use fill::FillFault;
pub use iter::Iter;
pub use map::Map;
pub use pairs::Pairs;
pub use sorted::SortedFault;
pub use usual::usual_config;
