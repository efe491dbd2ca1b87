//! Keys, fences, ranges, page ids, versions and the configuration of a table.
#![tactic(auto)]

mod config;
mod fence_word;
mod page;
mod range;
mod wished;

pub use config::{BadConfig, Config, Field};
pub use fence_word::FenceWord;
pub use page::{MAX_DEPTH, MAX_LEVEL, MAX_WORKERS, Pid, Version};
pub use range::{Fence, Key, Range};
pub use wished::Wished;
