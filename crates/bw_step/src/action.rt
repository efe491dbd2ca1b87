//! What a table does in one hold of its lock, and what comes of it.

ghost use Rattle.std.specs.Prelude.{◌≡◌, true, IfSome};
ghost use Rattle.bw_step.specs.Actions.{takes_spare};

use crate::fault::Denied;
use crate::receipt::Receipt;
use bw_delta::Spare;
use bw_keys::{Key, Pid, Version, Wished};
use std::alloc::Allocator;

/// What is done to a table in one hold of its lock. It has no memory of its own.
#[derive(Clone, Copy, Debug, PartialEq, Eq, Hash)]
pub enum Action {
    /// Changes the key as wished, and consolidates its leaf in place.
    Change {
        key: Key,
        wished: Wished,
    },
    /// Puts the record of the change that is wished on the key's leaf.
    Record {
        key: Key,
        wished: Wished,
    },
    /// Reshapes the page by one step, if it still has the version that was seen.
    Reshape {
        page: Pid,
        seen: Version,
        how: Reshaping,
    },
    /// Names an unposted page in its parent.
    AddTerm {
        child: Pid,
    },
    /// Splits the page in half and then consolidates it, in the place where it lies, if it still
    /// has the version that was seen.
    Cut {
        page: Pid,
        seen: Version,
    },
    /// Names an unposted page in its parent and then consolidates the parent, in the place where
    /// that lies.
    Post {
        child: Pid,
    },
}

/// What is done to a page that an action names.
#[derive(Clone, Copy, Debug, PartialEq, Eq, Hash)]
pub enum Reshaping {
    /// Consolidates it.
    Consolidate,
    /// Splits it in half.
    Halve,
}

impl Action {
    /// The memory that it takes of a table, if it takes any and there is some.
    #[inline(always)]
    pub fn spare<A: Allocator + Copy>(self, alloc: A) -> Option<Spare<A>>
        ensures taken { IfSome result (λ _. takes_spare self ≡ true) }
    {
        match self {
            Action::Record { .. } | Action::AddTerm { .. } => Spare::new(alloc).ok(),
            Action::Change { .. }
            | Action::Reshape { .. }
            | Action::Cut { .. }
            | Action::Post { .. } => None,
        }
    }
}

/// What an action came to.
#[derive(Clone, Copy, Debug, PartialEq, Eq, Hash)]
pub struct Performed {
    /// The page that was looked at or changed: the key's leaf, or the parent of a page that was
    /// named.
    pub page: Pid,
    /// The key that was wished of, where the page was split, or where the term begins.
    pub key: Key,
    /// The receipt of the look, or of the first step.
    pub receipt: Receipt,
    /// How many entries the page has then.
    pub count: u64,
    /// How many records stand on it then.
    pub depth: u8,
}

/// Why an action wasn't performed. Nothing was changed then.
#[derive(Clone, Copy, Debug, PartialEq, Eq, Hash)]
pub enum Unperformed {
    /// Its step is refused, or memory is short.
    Denied(Denied),
    /// It can't be done in one hold: the steps are to be proposed one by one.
    StepByStep,
}
