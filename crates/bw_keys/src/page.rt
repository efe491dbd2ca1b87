ghost use Rattle.std.specs.Prelude.{Some, decimal};

use std::fmt;

/// The greatest depth of a delta chain: how many records may stand above a base page, counted
/// along the deepest path.
pub const MAX_DEPTH: u8 = 64;

/// The greatest level of a page. Leaves have level 0.
pub const MAX_LEVEL: u8 = 15;

/// The greatest number of workers that one tree, or one history, may have.
pub const MAX_WORKERS: u32 = 64;

/// The logical id of a page: its place in the mapping table.
#[derive(Clone, Copy, Debug, PartialEq, Eq, PartialOrd, Ord, Hash)]
pub struct Pid(pub u32);

/// How often the entry of a page in the mapping table was changed, counted from a table's first
/// version on.
#[derive(Clone, Copy, Debug, PartialEq, Eq, PartialOrd, Ord, Hash)]
pub struct Version(pub u64);

impl fmt::Display for Pid {
    ghost output = { λ pid. Some (decimal pid.0) };

    fn fmt<W: fmt::Write>(&self, f: &mut fmt::Formatter<W>) -> fmt::Result {
        write!(f, "{}", self.0)
    }
}

impl fmt::Display for Version {
    ghost output = { λ version. Some (decimal version.0) };

    fn fmt<W: fmt::Write>(&self, f: &mut fmt::Formatter<W>) -> fmt::Result {
        write!(f, "{}", self.0)
    }
}
