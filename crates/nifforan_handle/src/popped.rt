ghost use Rattle.std.specs.Prelude.{◌≡◌, ◌≢◌, None, Some, IfOk, IfErr};
ghost use Rattle.bw_procedures.specs.declared.fault.Fault.TheVariants as faults;
ghost use Rattle.nifforan.specs.Growing.{fault_reported};
ghost use Rattle.nifforan_handle.specs.Answers.{pair_popped, IsZeroWithoutPopped};
ghost use Rattle.nifforan_handle.specs.Statuses.{status_of_fault, IsStatus, TellsFault};
ghost use Rattle.nifforan_handle.specs.declared.status.TheConstants.{OK, TABLE_FULL};

use crate::status::{self, OK};
use bw_keys::Key;
use nifforan::{Done, Fault};

/// The answer to the removal of a pair.
#[repr(C)]
#[derive(Clone, Copy)]
pub struct Popped {
    /// `OK`, or else why nothing was removed.
    pub status: u32,
    /// With `OK`, `OK`, or what cut page maintenance short, which a later call resumes.
    pub care: u16,
    /// Whether there was a pair.
    pub found: bool,
    /// Its key, or 0.
    pub key: u64,
    /// Its value, or 0.
    pub value: u64,
}

impl Popped {
    pub(crate) fn without(status: u32) -> Popped
        ensures status { result.status ≡ status }
        ensures pair { pair_popped result ≡ None }
        ensures care { result.care ≡ OK }
        ensures zero { IsZeroWithoutPopped result }
    {
        Popped {
            status,
            care: 0,
            found: false,
            key: 0,
            value: 0,
        }
    }

    pub(crate) fn of(answer: Result<Done<Option<(Key, u64)>>, Fault>) -> Popped
        ensures status { IfOk answer (λ done. result.status ≡ OK) }
        ensures pair { IfOk answer (λ done. pair_popped result ≡ done.reply) }
        ensures fault { IfErr answer (λ fault. result.status ≡ status_of_fault fault) }
        ensures nothing { IfErr answer (λ fault. pair_popped result ≡ None) }
        ensures full { result.status ≡ TABLE_FULL → fault_reported answer ≡ Some faults.TableFull }
        ensures full_care { result.care ≡ TABLE_FULL
            → fault_reported answer ≡ Some faults.TableFull }
        ensures told { IsStatus result.status }
        ensures beside { result.status ≢ OK → result.care ≡ OK }
        ensures cared { result.care ≢ OK → TellsFault result.care }
        ensures zero { IsZeroWithoutPopped result }
    {
        let done = match answer {
            Ok(done) => done,
            Err(fault) => return Popped::without(status::of_fault(fault)),
        };
        let (key, value) = done.reply.unwrap_or((0, 0));
        Popped {
            status: OK,
            care: status::of(done.fault),
            found: done.reply.is_some(),
            key,
            value,
        }
    }
}
