//! Base pages and the delta chains over them (Levandoski et al., ICDE 2013, "delta updating").
//!
//! A change of a page is a record on top of its chain. A chain holds itself through boxes, so a
//! record goes on top by a swap into a box that was prepared before: it takes no memory.
#![tactic(auto)]

mod base;
mod chain;
mod entry_list;
mod entry_slice;
mod fault;
mod fences;
mod moves;

ghost use Rattle.bw_delta.specs.Modified.{ModifyLaw};

pub use base::{Base, Entries};
pub use chain::{Chain, Delta, Merging, Node, Spare};
pub use entry_list::EntryList;
pub use entry_slice::EntrySlice;
pub use fault::{BaseFault, NoMemory};
pub use fences::Fences;

/// A modification of a sound chain changes the value at its key, and nothing else: no key comes or goes.
pub fn a_modification_changes_one_value()
    ensures { ModifyLaw }
{}
