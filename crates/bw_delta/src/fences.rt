use bw_keys::{Fence, Key, Pid};

/// The fence keys of a page, and its side link.
#[derive(Clone, Copy, Debug, PartialEq, Eq, Hash)]
pub struct Fences {
    /// The least key of the page's range.
    pub low: Key,
    /// Where the range ends.
    pub high: Fence,
    /// The page whose range begins there, if the range doesn't end at the top.
    pub right: Option<Pid>,
}
