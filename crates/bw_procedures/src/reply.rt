ghost use Rattle.std.specs.Prelude.{◌≡◌, ℕ, [], None, Some, IfOk, IfErr};
ghost use Rattle.bw_keys.specs.declared.wished.Wished.TheVariants as wishes;
ghost use Rattle.bw_procedures.specs.Texts.{delete_text, put_text, reply_text, set_text, text_without};
ghost use Rattle.bw_procedures.specs.Writing.{IsReceiptFor, IsReceiptOfSet, IsReceiptOfDelete};
ghost use Rattle.bw_procedures.specs.Writing.{del_of, put_of, set_of};

use crate::fault::Fault;
use bw_keys::Key;
use bw_step::Receipt;
use std::fmt;

/// What a put replies.
#[derive(Clone, Copy, Debug, PartialEq, Eq, Hash)]
pub enum Put {
    /// The key has the value now.
    Inserted,
    /// The key was there, with this value, and keeps it.
    Present(u64),
}

impl Put {
    /// Returns what a put replies where the key had this.
    #[inline(always)]
    pub(crate) fn where_had(had: Option<u64>) -> Put
        ensures { result ≡ put_of had }
    {
        match had {
            None => Put::Inserted,
            Some(value) => Put::Present(value),
        }
    }
}

/// What a set replies.
#[derive(Clone, Copy, Debug, PartialEq, Eq, Hash)]
pub enum Set {
    /// The key wasn't there, and has the value now.
    Inserted,
    /// The key was there, with this value, and has the other one now.
    Replaced(u64),
}

impl Set {
    /// Returns what a set replies whose receipt this is.
    #[inline(always)]
    pub fn of(receipt: Receipt) -> Set
        ensures { (key value : ℕ) → IsReceiptFor key (wishes.Set value) receipt
            → IsReceiptOfSet key value result receipt }
    {
        match receipt {
            Receipt::Modified { old, .. } => Set::Replaced(old),
            _ => Set::Inserted,
        }
    }

    /// Returns what a set replies where the key had this.
    #[inline(always)]
    pub(crate) fn where_had(had: Option<u64>) -> Set
        ensures { result ≡ set_of had }
    {
        match had {
            None => Set::Inserted,
            Some(value) => Set::Replaced(value),
        }
    }
}

/// What a delete replies.
#[derive(Clone, Copy, Debug, PartialEq, Eq, Hash)]
pub enum Del {
    /// The key was deleted, with this value.
    Removed(u64),
    /// The key had no value.
    NoKey,
}

impl Del {
    /// Returns what a delete replies whose receipt this is.
    #[inline(always)]
    pub fn of(receipt: Receipt) -> Del
        ensures { (key : ℕ) → IsReceiptFor key wishes.Delete receipt
            → IsReceiptOfDelete key result receipt }
    {
        match receipt {
            Receipt::Deleted { value, .. } => Del::Removed(value),
            _ => Del::NoKey,
        }
    }

    /// Returns what a delete replies where the key had this.
    #[inline(always)]
    pub(crate) fn where_had(had: Option<u64>) -> Del
        ensures { result ≡ del_of had }
    {
        match had {
            None => Del::NoKey,
            Some(value) => Del::Removed(value),
        }
    }
}

/// A reply that stands, and what ended helping or tending, if a fault did.
#[derive(Clone, Copy, Debug, PartialEq, Eq, Hash)]
pub struct Done<T> {
    pub reply: T,
    pub fault: Option<Fault>,
}

impl<T: Copy> Done<T> {
    /// Returns the reply, or the fault that stands beside it, for callers who want to know of it by
    /// `?`. The reply stands all the same.
    pub fn into_result(self) -> Result<T, Fault>
        ensures reply { IfOk result (λ reply. (reply ≡ self.reply) × (self.fault ≡ None)) }
        ensures fault { IfErr result (λ fault. self.fault ≡ Some fault) }
    {
        match self.fault {
            None => Ok(self.reply),
            Some(fault) => Err(fault),
        }
    }
}

/// What came of the removal of a range of keys.
#[must_use]
#[derive(Clone, Copy, Debug, PartialEq, Eq, Hash)]
pub struct Cleared {
    /// How many keys were deleted.
    pub removed: u64,
    /// What ended the call before its range did, if a fault did.
    pub fault: Option<Fault>,
}

/// The pairs of one leaf from a key on.
#[derive(Debug, PartialEq, Eq, Drop)]
pub struct Slice {
    /// The pairs, in the order of their keys.
    pub pairs: Vec<(Key, u64)>,
    /// Where the next leaf begins, unless this is the last one.
    pub next: Option<Key>,
}

/// The reply to an act.
#[derive(Clone, Copy, Debug, PartialEq, Eq, Hash)]
pub enum Reply {
    Put(Done<Put>),
    Set(Done<Set>),
    Delete(Done<Del>),
    /// The key's value, if it has one.
    Get(Option<u64>),
    Clear(Cleared),
}

/// Writes the answer in a word, with its value; after it, in brackets, what ended helping or
/// tending, if a fault did.
impl fmt::Display for Reply {
    ghost output = { λ reply. reply_text reply };

    fn fmt<W: fmt::Write>(&self, f: &mut fmt::Formatter<W>) -> fmt::Result {
        match *self {
            Reply::Put(done) => write!(f, "{}{}", done.reply, Beside(done.fault)),
            Reply::Set(done) => write!(f, "{}{}", done.reply, Beside(done.fault)),
            Reply::Delete(done) => write!(f, "{}{}", done.reply, Beside(done.fault)),
            Reply::Clear(Cleared { removed, fault }) => {
                write!(f, "cleared {removed}{}", Beside(fault))
            }
            Reply::Get(Some(value)) => write!(f, "found {value}"),
            Reply::Get(None) => write!(f, "none"),
        }
    }
}

impl fmt::Display for Put {
    ghost output = { λ put. Some (put_text put) };

    fn fmt<W: fmt::Write>(&self, f: &mut fmt::Formatter<W>) -> fmt::Result {
        match *self {
            Put::Inserted => write!(f, "inserted"),
            Put::Present(value) => write!(f, "present {value}"),
        }
    }
}

impl fmt::Display for Set {
    ghost output = { λ set. Some (set_text set) };

    fn fmt<W: fmt::Write>(&self, f: &mut fmt::Formatter<W>) -> fmt::Result {
        match *self {
            Set::Inserted => write!(f, "inserted"),
            Set::Replaced(old) => write!(f, "replaced {old}"),
        }
    }
}

impl fmt::Display for Del {
    ghost output = { λ delete. Some (delete_text delete) };

    fn fmt<W: fmt::Write>(&self, f: &mut fmt::Formatter<W>) -> fmt::Result {
        match *self {
            Del::Removed(value) => write!(f, "removed {value}"),
            Del::NoKey => write!(f, "nokey"),
        }
    }
}

/// What stands beside a reply, if a fault does.
#[derive(Clone, Copy)]
struct Beside(Option<Fault>);

impl fmt::Display for Beside {
    ghost output = { λ beside. text_without beside.0 [] };

    fn fmt<W: fmt::Write>(&self, f: &mut fmt::Formatter<W>) -> fmt::Result {
        match self.0 {
            Some(fault) => write!(f, " ({fault})"),
            None => Ok(()),
        }
    }
}
