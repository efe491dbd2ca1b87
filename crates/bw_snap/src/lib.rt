//! Readers without the lock: published copies of a shared tree, which readers see as they were
//! after a list of accepted steps, and never after a shorter one than before.
#![tactic(auto)]

mod announce;
mod ends;
mod fault;
mod front;
mod note;
mod proposed;
mod published;
mod question;
mod read_tree;
mod reader;
mod shown;
mod stamp;

pub use fault::{Closed, ScanFault, SnapFault};
pub use front::{Announcements, Naming};
pub use published::{MAX_READERS, Published};
pub use read_tree::ReadTree;
pub use reader::Reader;
pub use stamp::Stamp;
