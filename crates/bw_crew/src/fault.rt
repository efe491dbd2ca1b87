//! Why the workers of a crew didn't do their part.

ghost use Rattle.std.specs.Prelude.{◌≡◌};
ghost use Rattle.bw_crew.specs.declared.fault.CrewFault.TheVariants as crew;

use bw_delta::NoMemory as Want;
use std::alloc::AllocError;
use thiserror::Error;

/// Why the workers of a crew didn't do their task. Those whose threads were started did it, and
/// what they did is given up.
#[derive(Clone, Copy, Debug, PartialEq, Eq, Error)]
pub enum CrewFault {
    /// There was no room for what the workers bring back.
    #[error("out of memory")]
    NoMemory,
    /// A worker's thread couldn't be started.
    #[error("threads")]
    NoThread,
}

impl From<Want> for CrewFault {
    ghost from_gives = { λ _ fault. fault ≡ crew.NoMemory };

    fn from(_: Want) -> CrewFault {
        CrewFault::NoMemory
    }
}

impl From<AllocError> for CrewFault {
    ghost from_gives = { λ _ fault. fault ≡ crew.NoMemory };

    fn from(_: AllocError) -> CrewFault {
        CrewFault::NoMemory
    }
}
