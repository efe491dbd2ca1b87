//! What was done to a table, in words.

use bw_keys::{Config, Pid};
use bw_step::{Kind, Receipt};
use std::fmt;

/// What makes a moment.
#[derive(Clone, Copy, Debug)]
pub(crate) enum Telling {
    /// The table is new.
    Made(Config),
    /// A step was taken.
    Step(Receipt),
}

impl Telling {
    /// Returns what of the map is proved to be changed.
    pub(crate) fn proved(self) -> &'static str {
        match self {
            Telling::Made(_) => "Proved of it: the map is empty.",
            Telling::Step(Receipt::Shaped { .. }) => "Proved of it: the map is the one before.",
            Telling::Step(_) => "Proved of it: the map has changed at this key alone.",
        }
    }
}

impl fmt::Display for Telling {
    fn fmt<W: fmt::Write>(&self, f: &mut fmt::Formatter<W>) -> fmt::Result {
        match *self {
            Telling::Made(config) => write!(
                f,
                "A new table: fanout {}, chain {}, {} pages.",
                config.fanout, config.chain, config.pages
            ),
            Telling::Step(receipt) => write_receipt(f, receipt),
        }
    }
}

fn write_receipt<W: fmt::Write>(f: &mut fmt::Formatter<W>, receipt: Receipt) -> fmt::Result {
    match receipt {
        Receipt::Inserted { number, key, value } => {
            write!(
                f,
                "Insert: change {number} gave key {key} the value {value}."
            )
        }
        Receipt::Deleted { number, key, value } => {
            write!(
                f,
                "Delete: change {number} took key {key} with its value {value} out."
            )
        }
        Receipt::Modified {
            number,
            key,
            old,
            value,
        } => write!(
            f,
            "Modify: change {number} gave key {key}, which had {old}, the value {value}."
        ),
        Receipt::Looked { at, key, .. } => write!(f, "Look: key {key}, after change {at}."),
        Receipt::Shaped { kind, page, other } => write_shape(f, kind, page, other.unwrap_or(page)),
    }
}

fn write_shape<W: fmt::Write>(
    f: &mut fmt::Formatter<W>,
    kind: Kind,
    page: Pid,
    other: Pid,
) -> fmt::Result {
    match kind {
        Kind::Consolidate => write!(f, "Consolidate: the chain of page {page} is one base page."),
        Kind::Split => write!(f, "Split: page {page} gave its upper keys to page {other}."),
        Kind::TermAdd => write!(f, "Term add: page {page} leads to page {other}."),
        Kind::Grow => write!(
            f,
            "Grow: page {page} is the new root, and leads to page {other}."
        ),
        Kind::Mark => write!(f, "Mark: page {page} takes no more changes."),
        Kind::Merge => write!(f, "Merge: page {page} has taken page {other} in."),
        Kind::TermDelete => write!(
            f,
            "Term delete: page {page} no longer leads to page {other}, whose slot is free."
        ),
    }
}
