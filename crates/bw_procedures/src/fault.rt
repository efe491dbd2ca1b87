ghost use Rattle.std.specs.Prelude.{◌≡◌};
ghost use Rattle.bw_procedures.specs.declared.fault.Fault.TheVariants as faults;

use bw_delta::NoMemory;
use thiserror::Error;

/// Why a call gave up.
#[derive(Clone, Copy, Debug, PartialEq, Eq, Hash, Error)]
pub enum Fault {
    /// The call spent the effort that its configuration allows, or the worker's effort is at its
    /// end.
    #[error("contended")]
    Contended,
    #[error("no memory")]
    NoMemory,
    /// No slot was free for a new page.
    #[error("table full")]
    TableFull,
    /// The tree has its greatest height.
    #[error("too tall")]
    TooTall,
    /// A version or the book's number is used up.
    #[error("worn")]
    Worn,
}

impl From<NoMemory> for Fault {
    ghost from_gives = { λ _ fault. fault ≡ faults.NoMemory };

    fn from(_: NoMemory) -> Fault {
        Fault::NoMemory
    }
}
