//! The outcomes of calls, as numbers for C.
ghost use Rattle.std.specs.Prelude.{◌≡◌, ◌≢◌, ◌<◌, ◌^◌, Some};
ghost use Rattle.bw_procedures.specs.declared.fault.Fault.TheVariants as faults;
ghost use Rattle.nifforan_handle.specs.Statuses.{status_of, status_of_fault, status_of_field, TellsFault};
ghost use Rattle.nifforan_handle.specs.declared.status.TheConstants.{OK, TABLE_FULL};

use bw_keys::Field;
use nifforan::Fault;

/// The call did what it was asked to.
pub const OK: u32 = 0;

/// The handle is closed: it has no map.
pub const CLOSED: u32 = 1;

/// The handle is open: it has a map already.
pub const OPEN: u32 = 2;

/// The fanout isn't from 4 to 64.
pub const BAD_FANOUT: u32 = 3;

/// The chain isn't from 1 to 32.
pub const BAD_CHAIN: u32 = 4;

/// The pages aren't from 8 to 16,777,216.
pub const BAD_PAGES: u32 = 5;

/// The tries aren't from 1 to 1,000.
pub const BAD_TRIES: u32 = 6;

/// Memory is short, perhaps for more pages.
pub const NO_MEMORY: u32 = 7;

/// No page is free, and the map has as many as it may have.
pub const TABLE_FULL: u32 = 8;

/// The tree has its greatest height.
pub const TOO_TALL: u32 = 9;

/// The version of a page, or the number of changes, is used up.
pub const WORN: u32 = 10;

/// The call used all its tries.
pub const CONTENDED: u32 = 11;

/// The settings have another size than in this version.
pub const BAD_SIZE: u32 = 12;

/// The map is frozen: no call changes it.
pub const FROZEN: u32 = 13;

/// The map isn't frozen.
pub const NOT_FROZEN: u32 = 14;

/// Other handles have the frozen map too.
pub const SHARED: u32 = 15;

/// The key of a pair isn't above that of the pair before.
pub const UNSORTED: u32 = 16;

pub(crate) fn of(fault: Option<Fault>) -> u16
    ensures status { result ≡ status_of fault }
    ensures full { result ≡ TABLE_FULL → fault ≡ Some faults.TableFull }
    ensures reported { result ≢ OK → TellsFault result }
{
    match fault {
        Some(fault) => of_fault(fault) as u16,
        None => 0,
    }
}

pub(crate) fn of_fault(fault: Fault) -> u32
    ensures status { result ≡ status_of_fault fault }
    ensures full { result ≡ TABLE_FULL → fault ≡ faults.TableFull }
    ensures reported { TellsFault result }
    ensures short { result < 2 ^ 16 }
{
    match fault {
        Fault::NoMemory => NO_MEMORY,
        Fault::TableFull => TABLE_FULL,
        Fault::TooTall => TOO_TALL,
        Fault::Worn => WORN,
        Fault::Contended => CONTENDED,
    }
}

pub(crate) fn of_field(field: Field) -> u32
    ensures { result ≡ status_of_field field }
{
    match field {
        Field::Fanout => BAD_FANOUT,
        Field::Chain => BAD_CHAIN,
        Field::Pages => BAD_PAGES,
        Field::Tries => BAD_TRIES,
    }
}
