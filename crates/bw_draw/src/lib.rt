//! Pictures of a table: its pages with their chains, its numbers, and a drawing.
#![tactic(auto)]

mod drawing;
mod page;
mod pen;
mod picture;
mod stats;

pub use drawing::Drawing;
pub use page::Page;
pub use picture::Picture;
pub use stats::{Spread, Stats};
