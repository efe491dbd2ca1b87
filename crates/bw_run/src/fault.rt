//! Why a run has no end to show.

ghost use Rattle.std.specs.Prelude.{◌≡◌};
ghost use Rattle.bw_run.specs.declared.fault.RunFault.TheVariants as run_fault;

use bw_delta::NoMemory;
use bw_keys::BadConfig;
use bw_procedures::Fault;
use nifforan_forest::ShareForestFault;
use nifforan_shared::CrewFault;
use thiserror::Error;

/// Why a run has no end to show. The first four are found before any worker starts, in
/// this order.
#[derive(Clone, Copy, Debug, PartialEq, Eq, Hash, Error)]
pub enum RunFault {
    /// A field of the configuration is out of its range.
    #[error("{0}")]
    Config(BadConfig),
    /// There are no workers, or more than `MAX_WORKERS`.
    #[error("bad workers")]
    Workers,
    /// There are more readers than workers, or more than `MAX_READERS`.
    #[error("bad readers")]
    Readers,
    /// There are no trees, or more than `MAX_TREES`.
    #[error("bad trees")]
    Trees,
    /// There was no place for a reader, or a reader found no table to read.
    #[error("reader")]
    NoReader,
    /// A worker's thread couldn't be started.
    #[error("threads")]
    Threads,
    #[error("memory")]
    Memory,
    /// A worker, by its number, gave up at a row of the trace, counted from 1. If several gave up,
    /// it is the one with the least number.
    #[error("worker {0} row {1}: {2}")]
    Stopped(usize, usize, Fault),
    /// The receipts have no order that explains them: see [`Verdict::No`](bw_audit::Verdict::No).
    #[error("audit no {0} {1}")]
    Audit(usize, usize),
    /// The receipts of a forest's tree have no such order. The first such tree is named, by its number
    /// from 0 on.
    #[error("audit no {1} {2} tree {0}")]
    TreeAudit(usize, usize, usize),
    /// A tree of a forest has another range than it was made for. This never happens, since no
    /// worker can change a range; but what lies under a lock isn't known outside it.
    #[error("a tree has another range")]
    OtherRange,
}

impl From<NoMemory> for RunFault {
    ghost from_gives = { λ _ fault. fault ≡ run_fault.Memory };

    fn from(_: NoMemory) -> RunFault {
        RunFault::Memory
    }
}

impl From<CrewFault> for RunFault {
    ghost use Rattle.bw_run.specs.Faults.{run_fault_of};

    ghost from_gives = { λ crew fault. fault ≡ run_fault_of crew };

    fn from(fault: CrewFault) -> RunFault {
        match fault {
            CrewFault::NoMemory => RunFault::Memory,
            CrewFault::NoThread => RunFault::Threads,
        }
    }
}

impl From<ShareForestFault> for RunFault {
    ghost use Rattle.bw_run.specs.ForestFaults.{run_fault_of_share};

    ghost from_gives = { λ share fault. fault ≡ run_fault_of_share share };

    fn from(fault: ShareForestFault) -> RunFault {
        match fault {
            ShareForestFault::BadConfig(bad) => RunFault::Config(bad),
            ShareForestFault::BadWorkers => RunFault::Workers,
            ShareForestFault::NoMemory | ShareForestFault::NoMemoryForWorkers => RunFault::Memory,
            ShareForestFault::NoThread => RunFault::Threads,
            ShareForestFault::OtherRange => RunFault::OtherRange,
        }
    }
}
