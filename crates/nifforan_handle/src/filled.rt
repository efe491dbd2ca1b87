ghost use Rattle.std.specs.Prelude.{◌≡◌, ◌≢◌, Some};
ghost use Rattle.bw_procedures.specs.declared.fault.Fault.TheVariants as faults;
ghost use Rattle.nifforan_handle.specs.Statuses.{status_of, TellsFault};
ghost use Rattle.nifforan_handle.specs.declared.status.TheConstants.{OK, TABLE_FULL};

use crate::status::{self, OK};
use nifforan::Fault;

/// The answer to a call with many pairs.
#[repr(C)]
#[derive(Clone, Copy)]
pub struct Filled {
    /// `OK`, or what ended the call before its last pair.
    pub status: u32,
    /// With `OK`, `OK`, or what first cut page maintenance short, which a later call resumes.
    pub care: u16,
    /// The number of pairs that were set, or of those before the first that isn't above the one
    /// before.
    pub count: u64,
}

impl Filled {
    pub(crate) fn ended(status: u32, count: u64) -> Filled
        ensures status { result.status ≡ status }
        ensures care { result.care ≡ OK }
        ensures count { result.count ≡ count }
    {
        Filled {
            status,
            care: 0,
            count,
        }
    }

    pub(crate) fn whole(fault: Option<Fault>, count: u64) -> Filled
        ensures status { result.status ≡ OK }
        ensures care { result.care ≡ status_of fault }
        ensures full { result.care ≡ TABLE_FULL → fault ≡ Some faults.TableFull }
        ensures reported { result.care ≢ OK → TellsFault result.care }
        ensures count { result.count ≡ count }
    {
        Filled {
            status: OK,
            care: status::of(fault),
            count,
        }
    }
}
