ghost use Rattle.std.specs.Prelude.{◌<◌, ◌↔◌, IsTrue, Some};
ghost use Rattle.bw_keys.specs.Ranges.{Holds, end_of};
ghost use Rattle.bw_keys.specs.Texts.{fence_text};

use std::fmt;

/// A key of the map. Every u64 is one, 2^64 - 1 included.
pub type Key = u64;

/// Where a range ends: before a key, or above every key.
#[derive(Clone, Copy, Debug, PartialEq, Eq, PartialOrd, Ord, Hash)]
pub enum Fence {
    /// The range ends before this key.
    Key(Key),
    /// The range has every key from its low on.
    Top,
}

impl Fence {
    /// Reports whether the key lies below the fence. Every key lies below `Top`.
    pub fn is_above(self, key: Key) -> bool
        ensures { IsTrue result ↔ (key < end_of self) }
    {
        match self {
            Fence::Key(high) => key < high,
            Fence::Top => true,
        }
    }
}

impl fmt::Display for Fence {
    ghost output = { λ fence. Some (fence_text fence) };

    fn fmt<W: fmt::Write>(&self, f: &mut fmt::Formatter<W>) -> fmt::Result {
        match self {
            Fence::Key(high) => write!(f, "{high}"),
            Fence::Top => f.write_str("top"),
        }
    }
}

/// The keys from `low` on and below `high`.
#[derive(Clone, Copy, Debug, PartialEq, Eq, Hash)]
pub struct Range {
    /// The least key of the range, if the range has any.
    pub low: Key,
    /// Where the range ends.
    pub high: Fence,
}

impl Range {
    /// Reports whether the range holds the key.
    pub fn holds(self, key: Key) -> bool
        ensures { IsTrue result ↔ Holds self key }
    {
        self.low <= key && self.high.is_above(key)
    }
}
