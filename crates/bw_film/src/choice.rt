ghost use Rattle.std.specs.Prelude.{◌≡◌, ◌≤◌, ◌<◌, ◌⊎◌, true, false};

use bw_keys::Key;

/// Which moments are drawn, and what of each. Moment 0 is that of the new table, and each step that
/// is taken makes the next one.
#[derive(Clone, Copy, Debug, PartialEq, Eq)]
pub struct Choice {
    pub from: u64,
    /// The last one.
    pub to: u64,
    /// The key whose path is drawn, or none for all pages.
    pub key: Option<Key>,
}

impl Choice {
    /// Returns whether the moment is drawn.
    pub fn has(self, moment: u64) -> bool
        ensures inside { result ≡ true → (self.from ≤ moment) × (moment ≤ self.to) }
        ensures outside { result ≡ false → (moment < self.from) ⊎ (self.to < moment) }
    {
        if moment < self.from || self.to < moment {
            return false;
        }
        true
    }
}
