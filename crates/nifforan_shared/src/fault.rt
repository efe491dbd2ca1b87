//! Why a tree wasn't shared.

ghost use Rattle.std.specs.Prelude.{◌≡◌};
ghost use Rattle.nifforan_shared.specs.declared.fault.ShareFault.TheVariants as faults;

use bw_crew::CrewFault;
use bw_delta::NoMemory as Want;
use bw_keys::BadConfig;
use thiserror::Error;

/// Why a tree wasn't shared. The first two are found before any thread starts, in this order.
#[derive(Clone, Copy, Debug, PartialEq, Eq, Error)]
pub enum ShareFault {
    /// A field of the configuration is out of its range.
    #[error("{0}")]
    BadConfig(BadConfig),
    /// There are no workers, or too many.
    #[error("bad workers")]
    BadWorkers,
    #[error("out of memory")]
    NoMemory,
    /// A worker's thread couldn't be started. The threads that did start did their jobs, and what
    /// they did is lost.
    #[error("threads")]
    NoThread,
}

impl From<CrewFault> for ShareFault {
    ghost use Rattle.nifforan_shared.specs.Sharing.{share_fault_of};

    ghost from_gives = { λ crew fault. fault ≡ share_fault_of crew };

    fn from(fault: CrewFault) -> ShareFault {
        match fault {
            CrewFault::NoMemory => ShareFault::NoMemory,
            CrewFault::NoThread => ShareFault::NoThread,
        }
    }
}

impl From<Want> for ShareFault {
    ghost from_gives = { λ _ fault. fault ≡ faults.NoMemory };

    fn from(_: Want) -> ShareFault {
        ShareFault::NoMemory
    }
}
