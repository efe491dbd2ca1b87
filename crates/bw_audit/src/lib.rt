//! The audit of a history: whether one order of its changes explains each receipt. And the replay
//! of a run, event by event, on a new table.
#![tactic(auto)]

mod auditor;
mod change;
mod event;
mod guide;
mod index;
mod law;
mod opening;
mod replayer;
mod rules;
mod verdict;

pub use auditor::{audit, is_ascending};
pub use event::{Deed, Event};
pub use law::every_interleaving_is_legal;
pub use opening::{Opening, audit_from};
pub use replayer::{ReplayFault, Replayed, replay};
pub use verdict::{AuditFault, Verdict};
