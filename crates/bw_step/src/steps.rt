//! The kinds of step, a struct each: the pages that it names, the versions that its proposer saw of them,
//! and the memory that it takes.

mod consolidate;
mod delete;
mod grow;
mod insert;
mod mark;
mod merge;
mod modify;
mod split;
mod term_add;
mod term_delete;

pub use consolidate::Consolidate;
pub use delete::Delete;
pub use grow::Grow;
pub use insert::Insert;
pub use mark::Mark;
pub use merge::Merge;
pub use modify::Modify;
pub use split::Split;
pub use term_add::TermAdd;
pub use term_delete::TermDelete;
