//! A list of receipts that only contracts read. It takes no memory, and its functions do nothing at
//! run time.

ghost use Rattle.std.specs.Prelude.{◌≡◌, List, [], ◌∷◌, ◌++◌};
ghost use Rattle.std.specs.Borrow.{ftrue};
ghost use Rattle.bw_step.specs.declared.receipt.Receipt.{Receipt as Reported};

use bw_step::Receipt;
use std::marker::Model;

/// The receipts of steps that were taken, none of which is kept.
#[derive(Drop)]
pub struct Past {
    pub ghost receipts: { List Reported },
}

impl Model for Past {
    ghost also_owns = { λ _. ftrue };
}

// A struct with `also_owns` has neither by itself. This one owns nothing.
unsafe impl Send for Past {}

unsafe impl Sync for Past {}

impl Past {
    /// Returns the list without a receipt.
    #[inline(always)]
    pub(crate) fn empty() -> Past
        ensures { result.receipts ≡ [] }
    {
        Past {}
    }

    /// Returns the list with one more receipt after the others.
    #[inline(always)]
    pub(crate) fn with(_before: &Past, _receipt: &Receipt) -> Past
        ensures { result.receipts ≡ _before.now.receipts ++ _receipt.now ∷ [] }
    {
        Past {}
    }
}
