ghost use Rattle.std.specs.Prelude.{◌≡◌};
ghost use Rattle.nifforan_handle.specs.Statuses.{config_of};

use bw_keys::Config;

/// The size of `Settings` in bytes. A later version may have settings with more fields, which it
/// knows by their size.
pub const SETTINGS_SIZE: usize = 32;

/// The configuration of a map: see `Config`.
#[repr(C)]
#[derive(Clone, Copy)]
pub struct Settings {
    /// `SETTINGS_SIZE`.
    pub size: usize,
    /// The most pairs of a page before it is split, 4 to 64.
    pub fanout: u32,
    /// The most changes that a page carries before it is written anew, 1 to 32.
    pub chain: u32,
    /// The most pages that the map may have, 8 to 16,777,216.
    pub pages: u32,
    /// The most attempts of one call, 1 to 1,000.
    pub tries: u32,
    /// The version of each page at first. Any number will do.
    pub first_version: u64,
}

impl Settings {
    pub(crate) fn config(&self) -> Config
        ensures { result ≡ config_of self.now }
    {
        Config {
            fanout: self.fanout,
            chain: self.chain,
            pages: self.pages,
            tries: self.tries,
            first_version: self.first_version,
        }
    }
}
