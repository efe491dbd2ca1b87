//! Why a forest wasn't shared.

ghost use Rattle.std.specs.Prelude.{◌≡◌};

use bw_crew::CrewFault;
use bw_keys::BadConfig;
use thiserror::Error;

/// Why a forest wasn't shared. The first three are found before the trees are put under their locks,
/// so before any worker starts, in this order. With the others the workers that started did their jobs:
/// [`share_closed_forest`](crate::share_closed_forest) gives what they did back,
/// [`share_forest`](crate::share_forest) doesn't.
#[derive(Clone, Copy, Debug, PartialEq, Eq, Error)]
pub enum ShareForestFault {
    /// A field of the configuration is out of its range.
    #[error("{0}")]
    BadConfig(BadConfig),
    /// There are no workers, or too many.
    #[error("bad workers")]
    BadWorkers,
    /// Memory for the trees and the shares was short.
    #[error("out of memory")]
    NoMemory,
    /// Memory for the workers was short.
    #[error("out of memory")]
    NoMemoryForWorkers,
    /// A worker's thread couldn't be started.
    #[error("threads")]
    NoThread,
    /// A tree has another range than it was made for: see
    /// [`ForestFault::OtherRange`](bw_forest::ForestFault::OtherRange). No worker can change a range,
    /// so a forest made and shared here never meets this.
    #[error("a tree has another range")]
    OtherRange,
}

impl From<CrewFault> for ShareForestFault {
    ghost use Rattle.nifforan_forest.specs.Sharing.{share_fault_of};

    ghost from_gives = { λ crew fault. fault ≡ share_fault_of crew };

    fn from(fault: CrewFault) -> ShareForestFault {
        match fault {
            CrewFault::NoMemory => ShareForestFault::NoMemoryForWorkers,
            CrewFault::NoThread => ShareForestFault::NoThread,
        }
    }
}
