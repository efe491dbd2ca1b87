ghost use Rattle.std.specs.Prelude.{true, false};
ghost use Rattle.bw_tree.specs.Ranges.{all_keys};

use bw_keys::{Key, Range};

/// The keys that a tree takes: any where it is alone, those of a range where it is one of a forest.
pub trait Keys: Copy {
    ghost use Rattle.std.specs.Prelude.{◌↔◌, Bool, IsTrue};
    ghost use Rattle.bw_keys.specs.Ranges.{Holds};
    ghost use Rattle.bw_keys.specs.declared.range.Range.{Range};

    // whether the tree is alone
    ghost alone: { Bool };

    // the range that these keys are
    ghost range: { Self → Range };

    /// Reports whether the tree takes the key.
    fn take(self, key: Key) -> bool
        ensures { IsTrue result ↔ Holds (range self) key };
}

/// Any key.
#[derive(Clone, Copy)]
pub struct AnyKey;

impl Keys for AnyKey {
    ghost alone = { true };

    ghost range = { λ _. all_keys };

    #[inline(always)]
    fn take(self, _key: Key) -> bool {
        true
    }
}

impl Keys for Range {
    ghost alone = { false };

    ghost range = { λ range. range };

    #[inline(always)]
    fn take(self, key: Key) -> bool {
        self.holds(key)
    }
}
