//! The answers to calls.
ghost use Rattle.std.specs.Prelude.{◌≡◌, None, Some, IfOk, IfErr, IfSome};
ghost use Rattle.bw_procedures.specs.declared.fault.Fault.TheVariants as faults;
ghost use Rattle.nifforan.specs.Growing.{fault_reported};
ghost use Rattle.nifforan_handle.specs.Answers.{had, next_key, pair_of, before_compare};
ghost use Rattle.nifforan_handle.specs.Answers.{RepliesWith, IsCare, IsZeroWithout, IsZeroAtEnd};
ghost use Rattle.nifforan_handle.specs.Answers.{IsZeroWithoutPair};
ghost use Rattle.nifforan_handle.specs.Statuses.{status_of_fault, status_of, IsStatus};
ghost use Rattle.nifforan_handle.specs.declared.status.TheConstants.{CLOSED, OK, TABLE_FULL};

use crate::status::{self, CLOSED, OK};
use nifforan::{CompareAndSet, Del, Done, Fault, Put, Set};

/// What a call on one key replies: it says what the key had before.
pub(crate) trait Before {
    ghost use Rattle.std.specs.Prelude.{◌≡◌, ℕ, Option};

    // the value that the key had before the call, if it had one
    ghost before: { Self → Option ℕ };

    fn before(self) -> Option<u64>
        ensures { result ≡ before self };
}

impl Before for Put {
    ghost use Rattle.nifforan.specs.Maps.{before_put};

    ghost before = { before_put };

    fn before(self) -> Option<u64> {
        match self {
            Put::Inserted => None,
            Put::Present(there) => Some(there),
        }
    }
}

impl Before for Set {
    ghost use Rattle.nifforan.specs.Maps.{before_set};

    ghost before = { before_set };

    fn before(self) -> Option<u64> {
        match self {
            Set::Inserted => None,
            Set::Replaced(old) => Some(old),
        }
    }
}

impl Before for Del {
    ghost use Rattle.nifforan.specs.Maps.{before_delete};

    ghost before = { before_delete };

    fn before(self) -> Option<u64> {
        match self {
            Del::Removed(old) => Some(old),
            Del::NoKey => None,
        }
    }
}

/// The answer to a call on one key.
#[repr(C)]
#[derive(Clone, Copy)]
pub struct Reply {
    /// `OK` with a reply, or else why there is none: then the pairs are unchanged.
    pub status: u32,
    /// With a reply, `OK`, or what cut page maintenance short, which a later call resumes.
    pub care: u16,
    /// Whether the key had a value before the call.
    pub found: bool,
    /// That value, or 0.
    pub value: u64,
}

impl Reply {
    pub(crate) fn without(status: u32) -> Reply
        ensures status { result.status ≡ status }
        ensures had { had result ≡ None }
        ensures care { result.care ≡ OK }
        ensures zero { IsZeroWithout result }
    {
        Reply {
            status,
            care: 0,
            found: false,
            value: 0,
        }
    }

    pub(crate) fn found(before: Option<u64>, fault: Option<Fault>) -> Reply
        ensures status { result.status ≡ OK }
        ensures had { had result ≡ before }
        ensures care { result.care ≡ status_of fault }
        ensures full { result.care ≡ TABLE_FULL → fault ≡ Some faults.TableFull }
        ensures reported { IsCare result }
        ensures zero { IsZeroWithout result }
    {
        Reply {
            status: OK,
            care: status::of(fault),
            found: before.is_some(),
            value: before.unwrap_or(0),
        }
    }

    pub(crate) fn of_compared(
        answer: Result<Done<CompareAndSet>, Fault>,
        expected: Option<u64>,
    ) -> Reply
        ensures reply { IfOk answer (λ done.
            RepliesWith (before_compare expected done.reply) result) }
        ensures fault { IfErr answer (λ fault. result.status ≡ status_of_fault fault) }
        ensures nothing { IfErr answer (λ fault. had result ≡ None) }
        ensures full { result.status ≡ TABLE_FULL → fault_reported answer ≡ Some faults.TableFull }
        ensures full_care { result.care ≡ TABLE_FULL
            → fault_reported answer ≡ Some faults.TableFull }
        ensures status { IsStatus result.status }
        ensures reported { IsCare result }
        ensures zero { IsZeroWithout result }
    {
        match answer {
            Ok(done) => match done.reply {
                CompareAndSet::Set => Reply::found(expected, done.fault),
                CompareAndSet::Differs(there) => Reply::found(there, done.fault),
            },
            Err(fault) => Reply::without(status::of_fault(fault)),
        }
    }

    pub(crate) fn of<T: Before>(answer: Result<Done<T>, Fault>) -> Reply
        ensures reply { IfOk answer (λ done. RepliesWith (T.before done.reply) result) }
        ensures care { IfOk answer (λ done. result.care ≡ status_of done.fault) }
        ensures fault { IfErr answer (λ fault. result.status ≡ status_of_fault fault) }
        ensures nothing { IfErr answer (λ fault. had result ≡ None) }
        ensures full { result.status ≡ TABLE_FULL → fault_reported answer ≡ Some faults.TableFull }
        ensures full_care { result.care ≡ TABLE_FULL
            → fault_reported answer ≡ Some faults.TableFull }
        ensures status { IsStatus result.status }
        ensures reported { IsCare result }
        ensures zero { IsZeroWithout result }
    {
        match answer {
            Ok(done) => Reply::found(done.reply.before(), done.fault),
            Err(fault) => Reply::without(status::of_fault(fault)),
        }
    }
}

/// The number of pairs of a map, and of the pages that it still has room for.
#[repr(C)]
#[derive(Clone, Copy)]
pub struct Count {
    /// `OK` or `CLOSED`.
    pub status: u32,
    pub pairs: u64,
    pub free_pages: u64,
}

impl Count {
    pub(crate) fn closed() -> Count
        ensures status { result.status ≡ CLOSED }
        ensures pairs { result.pairs ≡ 0 }
        ensures free { result.free_pages ≡ 0 }
    {
        Count {
            status: CLOSED,
            pairs: 0,
            free_pages: 0,
        }
    }

    pub(crate) fn of(pairs: u64, free_pages: u64) -> Count
        ensures status { result.status ≡ OK }
        ensures pairs { result.pairs ≡ pairs }
        ensures free { result.free_pages ≡ free_pages }
    {
        Count {
            status: OK,
            pairs,
            free_pages,
        }
    }
}

/// The answer to the removal of a range of keys.
#[repr(C)]
#[derive(Clone, Copy)]
pub struct Cleared {
    /// `OK`, or what ended the call before its range did.
    pub status: u32,
    /// The number of keys that were deleted.
    pub removed: u64,
}

impl Cleared {
    pub(crate) fn without(status: u32) -> Cleared
        ensures status { result.status ≡ status }
        ensures removed { result.removed ≡ 0 }
    {
        Cleared { status, removed: 0 }
    }

    pub(crate) fn of(cleared: nifforan::Cleared) -> Cleared
        ensures status { result.status ≡ status_of cleared.fault }
        ensures full { result.status ≡ TABLE_FULL → cleared.fault ≡ Some faults.TableFull }
        ensures reported { IsStatus result.status }
        ensures removed { result.removed ≡ cleared.removed }
    {
        Cleared {
            status: status::of(cleared.fault) as u32,
            removed: cleared.removed,
        }
    }
}

/// The answer to a look for one pair.
#[repr(C)]
#[derive(Clone, Copy)]
pub struct Found {
    /// `OK` or `CLOSED`.
    pub status: u32,
    /// Whether there is such a pair.
    pub found: bool,
    /// Its key, or 0.
    pub key: u64,
    /// Its value, or 0.
    pub value: u64,
}

impl Found {
    pub(crate) fn closed() -> Found
        ensures status { result.status ≡ CLOSED }
        ensures pair { pair_of result ≡ None }
        ensures zero { IsZeroWithoutPair result }
    {
        Found {
            status: CLOSED,
            ..Found::of(None)
        }
    }

    pub(crate) fn of(pair: Option<(u64, u64)>) -> Found
        ensures status { result.status ≡ OK }
        ensures pair { pair_of result ≡ pair }
        ensures zero { IsZeroWithoutPair result }
    {
        let (key, value) = pair.unwrap_or((0, 0));
        Found {
            status: OK,
            found: pair.is_some(),
            key,
            value,
        }
    }
}

/// A key and its value.
#[repr(C)]
#[derive(Clone, Copy)]
pub struct Pair {
    pub key: u64,
    pub value: u64,
}

/// The answer to a read of pairs.
#[repr(C)]
#[derive(Clone, Copy)]
pub struct Read {
    /// The number of pairs that were read.
    pub count: usize,
    /// The key of the next pair, or 0.
    pub next: u64,
    /// Whether there is a next pair.
    pub has_next: bool,
    /// `OK` or `CLOSED`.
    pub status: u32,
}

impl Read {
    pub(crate) fn closed() -> Read
        ensures status { result.status ≡ CLOSED }
        ensures count { result.count ≡ 0 }
        ensures next { next_key result ≡ None }
        ensures zero { IsZeroAtEnd result }
    {
        Read {
            count: 0,
            next: 0,
            has_next: false,
            status: CLOSED,
        }
    }

    pub(crate) fn of(count: usize, next: Option<u64>) -> Read
        ensures status { result.status ≡ OK }
        ensures count { result.count ≡ count }
        ensures next { next_key result ≡ next }
        ensures zero { IsZeroAtEnd result }
    {
        Read {
            count,
            next: next.unwrap_or(0),
            has_next: next.is_some(),
            status: OK,
        }
    }
}
