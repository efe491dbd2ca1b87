ghost use Rattle.std.specs.Prelude.{◌≡◌};
ghost use Rattle.bw_step.specs.Stages.{is_in_row, has_term, is_leaving};

use bw_keys::{Fence, Key, Pid, Version};

/// What an entry of the mapping table is used for.
#[derive(Clone, Copy, Debug, PartialEq, Eq, Hash)]
pub enum Stage {
    /// For no page.
    Free,
    /// For a page that a split made, and that its parent doesn't name yet.
    Unposted,
    /// For a page that its parent names, or for the root.
    Posted,
    /// For a page whose removal has begun: no more than its merge changes it.
    Marked,
    /// For a page that its left neighbour has taken in, and that its parent still names.
    Merged,
}

impl Stage {
    /// Reports whether a page at this stage is in the row of its level: Unposted, Posted or Marked.
    pub fn is_in_row(self) -> bool
        ensures { result ≡ is_in_row self }
    {
        match self {
            Stage::Unposted | Stage::Posted | Stage::Marked => true,
            Stage::Free | Stage::Merged => false,
        }
    }

    /// Reports whether the level above has a term for a page at this stage: Posted, Marked or Merged.
    pub fn has_term(self) -> bool
        ensures { result ≡ has_term self }
    {
        match self {
            Stage::Posted | Stage::Marked | Stage::Merged => true,
            Stage::Free | Stage::Unposted => false,
        }
    }

    /// Reports whether the removal of a page at this stage has begun: Marked or Merged.
    pub fn is_leaving(self) -> bool
        ensures { result ≡ is_leaving self }
    {
        match self {
            Stage::Marked | Stage::Merged => true,
            Stage::Free | Stage::Unposted | Stage::Posted => false,
        }
    }
}

/// A page as the table had it.
#[derive(Clone, Copy, Debug, PartialEq, Eq, Hash)]
pub struct View {
    pub pid: Pid,
    pub version: Version,
    pub stage: Stage,
    /// The least key of the page's range.
    pub low: Key,
    /// Where the range ends.
    pub high: Fence,
    /// The page to the right, if there is one.
    pub right: Option<Pid>,
    /// 0 for a leaf, and at most `MAX_LEVEL`.
    pub level: u8,
    /// How many pairs a leaf has, or routes an inner page.
    pub count: u64,
    /// How many records stand above a base, along the deepest path.
    pub depth: u8,
}

/// What a look at a key found.
#[derive(Clone, Copy, Debug, PartialEq, Eq, Hash)]
pub struct Look {
    /// The value at the key, if the map has it.
    pub found: Option<u64>,
    /// How many changes of the map there had been.
    pub at: u64,
}
