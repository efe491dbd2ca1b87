ghost use Rattle.std.specs.Prelude.{◌≡◌, ◌↔◌, ◌+◌, ◌-◌, ◌/◌, ◌<◌, ◌≤◌, None, Some, IsOk, IfErr, IfSome, IfNone};
ghost use Rattle.bw_keys.specs.Limits.{first_bad_field, usual_config, usual_with};
ghost use Rattle.bw_keys.specs.Rooms.{half, HasRoomFor, most_pairs};
ghost use Rattle.bw_keys.specs.Texts.{field_text};

use std::fmt;
use thiserror::Error;

/// What a table is made by.
#[derive(Clone, Copy, Debug, PartialEq, Eq, Hash)]
pub struct Config {
    /// How many entries a page may have before it is split, 4 to 64. A page with fewer than a
    /// quarter of it, rounded down, is merged into its left neighbour.
    pub fanout: u32,
    /// The depth at which a page is consolidated, in records, 1 to 32.
    pub chain: u32,
    /// How many pages the mapping table has room for, 8 to 65536.
    pub pages: u32,
    /// The effort that one call may spend before it gives up, in attempts, 1 to 1000.
    pub tries: u32,
    /// The version that every page begins with. Any number will do.
    pub first_version: u64,
}

/// The fields of a [`Config`] that have a range, in the order in which `check` looks at them.
#[derive(Clone, Copy, Debug, PartialEq, Eq, Hash)]
pub enum Field {
    Fanout,
    Chain,
    Pages,
    Tries,
}

/// The first field of a configuration that is out of its range.
#[derive(Clone, Copy, Debug, PartialEq, Eq, Hash, Error)]
#[error("bad {0}")]
pub struct BadConfig(pub Field);

impl Config {
    /// Reports the first field that is out of its range, in the order in which they are written.
    pub fn check(&self) -> Result<(), BadConfig>
        ensures fine { IsOk result ↔ (first_bad_field self.now ≡ None) }
        ensures first { IfErr result (λ bad. first_bad_field self.now ≡ Some bad.0) }
    {
        if !(4..=64).contains(&self.fanout) {
            return Err(BadConfig(Field::Fanout));
        }
        if !(1..=32).contains(&self.chain) {
            return Err(BadConfig(Field::Chain));
        }
        if !(8..=65536).contains(&self.pages) {
            return Err(BadConfig(Field::Pages));
        }
        if !(1..=1000).contains(&self.tries) {
            return Err(BadConfig(Field::Tries));
        }
        Ok(())
    }

    /// Returns the usual configuration with as many pages as that number of pairs may need, whatever
    /// the order of insertion, or `None` if they may need more than 65,536: from 2,031,492 pairs on.
    ///
    /// A page is split where it has 65 entries or more, and either part has at least 32 of them, but
    /// for the last page of a level, which may be split off with fewer. So in a tree that insertions
    /// alone made, all pages but one of a level have 32 entries, and there are pages for each such
    /// tree. Deletes may leave pages with as few as 16 entries: where they come in between, ask for
    /// twice the pairs.
    pub fn for_pairs(pairs: u64) -> Option<Config>
        ensures room { IfSome result (HasRoomFor pairs) }
        ensures few { IfSome result (λ config. config.pages ≤ pairs / (half - 1) + 8) }
        ensures usual { IfSome result (λ config. config ≡ usual_with config.pages) }
        ensures fine { IfSome result (λ config. first_bad_field config ≡ None) }
        ensures none { IfNone result (most_pairs < pairs) }
    {
        let pages = pairs / (HALF - 1) + MOST_LEVELS;
        if pages > 65536 {
            return None;
        }
        Some(Config {
            pages: (pages as u32).max(8),
            ..Config::default()
        })
    }
}

/// The least that a split leaves to either page, where pages may have 64 entries.
const HALF: u64 = 32;

/// The most levels that 65,536 such pages make.
const MOST_LEVELS: u64 = 5;

/// The usual configuration of a map: 16,384 pages of 64 entries, consolidated after each change. A
/// table takes some 2.9 MB for them at once, and they have room for 507,000 pairs in any order of
/// insertion (see [`Config::for_pairs`]).
impl Default for Config {
    ghost is_default = { λ config. config ≡ usual_config };

    fn default() -> Self {
        Config {
            fanout: 64,
            chain: 1,
            pages: 16_384,
            tries: 1000,
            first_version: 0,
        }
    }
}

impl fmt::Display for Field {
    ghost output = { λ field. Some (field_text field) };

    fn fmt<W: fmt::Write>(&self, f: &mut fmt::Formatter<W>) -> fmt::Result {
        f.write_str(match self {
            Field::Fanout => "fanout",
            Field::Chain => "chain",
            Field::Pages => "pages",
            Field::Tries => "tries",
        })
    }
}
