use bw_keys::{Key, Pid};

/// The kinds of step that change the tree's shape and leave the map as it is.
#[derive(Clone, Copy, Debug, PartialEq, Eq, Hash)]
pub enum Kind {
    Consolidate,
    Split,
    TermAdd,
    Grow,
    Mark,
    Merge,
    TermDelete,
}

/// What an accepted step did, or a look saw. The changes of the map are numbered from 1 on.
#[derive(Clone, Copy, Debug, PartialEq, Eq, Hash)]
pub enum Receipt {
    /// The key got the value, by the change with this number.
    Inserted {
        number: u64,
        key: Key,
        value: u64,
    },
    /// The key lost the value, by the change with this number.
    Deleted {
        number: u64,
        key: Key,
        value: u64,
    },
    /// The key had the old value and got the other, by the change with this number.
    Modified {
        number: u64,
        key: Key,
        old: u64,
        value: u64,
    },
    /// The key had this value, or none, after the change with the number `at`.
    Looked {
        at: u64,
        key: Key,
        found: Option<u64>,
    },
    /// The tree changed its shape at the page, and at the other page where there is one.
    Shaped {
        kind: Kind,
        page: Pid,
        other: Option<Pid>,
    },
}
