ghost use Rattle.std.specs.Prelude.{◌≡◌};
ghost use Rattle.bw_keys.specs.Ranges.{end_of};
ghost use Rattle.nifforan_handle.specs.Held.{end_at};

use bw_keys::Fence;

/// Where a range of keys ends: right below a key, which isn't in the range, or past all keys.
#[repr(C)]
#[derive(Clone, Copy)]
pub struct High {
    /// The key that the range ends below.
    pub key: u64,
    /// Whether the range has all keys from its low on. Then `key` is ignored.
    pub is_top: bool,
}

impl High {
    /// Past all keys.
    pub const TOP: High = High {
        key: 0,
        is_top: true,
    };

    /// Returns the end right below the key.
    pub fn below(key: u64) -> High
        ensures { end_at result ≡ key }
    {
        High { key, is_top: false }
    }

    pub(crate) fn fence(self) -> Fence
        ensures { end_of result ≡ end_at self }
    {
        if self.is_top {
            Fence::Top
        } else {
            Fence::Key(self.key)
        }
    }
}
