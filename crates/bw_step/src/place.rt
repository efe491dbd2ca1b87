use crate::view::View;
use bw_keys::{Key, Pid};

/// A page to visit next on the way to a key.
#[derive(Clone, Copy, Debug, PartialEq, Eq, Hash)]
pub struct Place {
    pub pid: Pid,
    /// The level that the page has, unless its entry was given to another page meanwhile.
    pub level: u8,
    /// The page's range begins here or later.
    pub from: Key,
}

/// Where a search goes from a page.
#[derive(Clone, Copy, Debug, PartialEq, Eq, Hash)]
pub enum Go {
    /// The page isn't there any more: the search begins again at the root.
    Gone,
    /// To the right, by the side link.
    Right(Place),
    /// One level down.
    Down(Place),
    /// Nowhere: this is the page.
    Here(View),
}

/// An unfinished change of the tree's shape that a search met.
#[derive(Clone, Copy, Debug, PartialEq, Eq, Hash)]
pub enum Todo {
    /// The marked page is to be merged into its left neighbour.
    Merge(Pid),
    /// The page is to be named by its parent.
    Post(Pid),
    /// The term of the merged page is to be taken out of its parent.
    DropTerm(Pid),
}

/// What a visit of a page answers.
#[derive(Clone, Copy, Debug, PartialEq, Eq, Hash)]
pub struct Next {
    pub go: Go,
    pub todo: Option<Todo>,
}
