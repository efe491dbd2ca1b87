//! The page that a chain stands for: its fences, kind and depth, and the upper half of a base page.

mod halving;
pub(crate) mod shape;

pub(crate) use halving::part_from;
pub use halving::{HalveFault, halve, halve_with_room, middle_key};
pub use shape::{depth, fences, is_leaf};
