ghost use Rattle.std.specs.Prelude.{◌≡◌};
ghost use Rattle.bw_procedures.specs.declared.fault.Fault.TheVariants as faults;
ghost use Rattle.bw_snap.specs.CallFaults.{call_fault};

use bw_keys::BadConfig;
use bw_procedures::Fault;
use thiserror::Error;

/// Why there is no new tree with readers: the first fault that applies, in the order in which they
/// stand here.
#[derive(Clone, Copy, Debug, PartialEq, Eq, Error)]
pub enum SnapFault {
    /// A field of the configuration is out of its range.
    #[error("{0}")]
    BadConfig(BadConfig),
    /// There are no workers, or more than `MAX_WORKERS`.
    #[error("bad workers")]
    BadWorkers,
    /// There are no readers, or more than `MAX_READERS`.
    #[error("bad readers")]
    BadReaders,
    #[error("out of memory")]
    NoMemory,
    /// There was no place for a reader.
    #[error("no reader")]
    NoReader,
}

/// The published table gave no entry, as may be once the tree is closed.
#[derive(Clone, Copy, Debug, PartialEq, Eq, Error)]
#[error("closed")]
pub struct Closed;

/// Why there was no scan.
#[derive(Clone, Copy, Debug, PartialEq, Eq, Error)]
pub enum ScanFault {
    /// The published table gave no entry.
    #[error("closed")]
    Closed,
    #[error("out of memory")]
    NoMemory,
}

/// The call that asked may be made again.
impl From<Closed> for Fault {
    ghost from_gives = { λ _ fault. fault ≡ faults.Contended };

    fn from(_: Closed) -> Fault {
        Fault::Contended
    }
}

/// A call may be made again if its scan met a closed table without an entry for it.
impl From<ScanFault> for Fault {
    ghost from_gives = { λ scan fault. fault ≡ call_fault scan };

    fn from(fault: ScanFault) -> Fault {
        match fault {
            ScanFault::Closed => Fault::Contended,
            ScanFault::NoMemory => Fault::NoMemory,
        }
    }
}
