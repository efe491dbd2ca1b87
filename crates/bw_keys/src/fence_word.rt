ghost use Rattle.std.specs.Prelude.{◌≡◌, ◌<◌};
ghost use Rattle.bw_keys.specs.Ranges.{end_of};

use crate::range::Fence;
use std::marker::Model;

/// The fence of a range that has a key, in one word.
#[derive(Clone, Copy)]
pub struct FenceWord {
    // 0 is the top, as no such range ends before key 0.
    word: u64,
}

impl Model for FenceWord {
    ghost use Rattle.bw_keys.specs.declared.range.Fence.{Fence};

    ghost Value = { Fence };

    ghost use Rattle.bw_keys.specs.Words.{fence_in, word_for};

    ghost view = { λ w. fence_in w.word };

    ghost inverse = { λ fence. record { word = word_for fence } };

    ghost use Rattle.bw_keys.specs.Words.{word_for-fence_in};

    ghost inverse_ok = { λ w h i. record { word = word_for-fence_in w.word i } };
}

impl FenceWord {
    /// Returns the word of a fence above some key.
    #[inline(always)]
    pub fn new(fence: Fence) -> FenceWord
        requires { 0 < end_of fence }
        ensures { result ≡ fence }
    {
        match fence {
            Fence::Key(high) => FenceWord { word: high },
            Fence::Top => FenceWord { word: 0 },
        }
    }

    /// Returns the fence, which some key lies below.
    #[inline(always)]
    pub fn fence(self) -> Fence
        ensures same { result ≡ self }
        ensures above { 0 < end_of result }
    {
        if self.word == 0 {
            Fence::Top
        } else {
            Fence::Key(self.word)
        }
    }
}
