//! The entries of a chain or a page, pairs or routes: what a record changes of them, and where they
//! stand in a page's list.

pub(crate) mod bounds;
pub(crate) mod change;
pub(crate) mod sorted;
pub(crate) mod value;
