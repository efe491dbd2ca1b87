//! The answers to lines, and how they are printed.

use bw_keys::{BadConfig, Key, Pid};
use bw_step::{Go, Look, Next, Place, Receipt, Refused, Survey, Todo, View};
use std::fmt;

/// The answer to a line.
#[derive(Debug, Drop)]
pub enum Answer {
    Made,
    BadConfig(BadConfig),
    BadEntries,
    Accepted(Receipt),
    Refused(Refused),
    /// The step was accepted, though `check` had foretold a refusal.
    RefusalForetold(Refused, Receipt),
    /// The step was refused, though `check` had foretold another answer.
    OtherForetold(Refused),
    /// The step was refused, though the table has changed.
    Changed(Refused),
    Page(Option<View>),
    Look(Option<Look>),
    Next(Next),
    Root(Place),
    Leaf(Pid),
    Survey(Survey),
    Pairs(Vec<(Key, u64)>),
}

impl fmt::Display for Answer {
    fn fmt<W: fmt::Write>(&self, f: &mut fmt::Formatter<W>) -> fmt::Result {
        match self {
            Answer::Made => f.write_str("ok"),
            Answer::BadConfig(bad) => write!(f, "{bad}"),
            Answer::BadEntries => f.write_str("bad entries"),
            Answer::Accepted(receipt) => write_receipt(f, *receipt),
            Answer::Refused(reason) => write_refusal(f, *reason),
            Answer::RefusalForetold(reason, receipt) => {
                write_receipt(f, *receipt)?;
                f.write_str(", but check foretold: ")?;
                write_refusal(f, *reason)
            }
            Answer::OtherForetold(reason) => {
                write_refusal(f, *reason)?;
                f.write_str(", but check foretold something else")
            }
            Answer::Changed(reason) => {
                write_refusal(f, *reason)?;
                f.write_str(", but the table has changed")
            }
            Answer::Page(None) => f.write_str("none"),
            Answer::Page(Some(view)) => write_view(f, view),
            Answer::Look(look) => write_look(f, *look),
            Answer::Next(next) => write_next(f, next),
            Answer::Root(place) => write_place(f, place),
            Answer::Leaf(pid) => write!(f, "{pid}"),
            Answer::Survey(survey) => write_survey(f, survey),
            Answer::Pairs(pairs) => write_pairs(f, pairs),
        }
    }
}

/// A page's id, or `-` if there is none.
#[derive(Clone, Copy)]
struct OrDash(Option<Pid>);

impl fmt::Display for OrDash {
    fn fmt<W: fmt::Write>(&self, f: &mut fmt::Formatter<W>) -> fmt::Result {
        match self.0 {
            Some(pid) => write!(f, "{pid}"),
            None => f.write_str("-"),
        }
    }
}

fn write_receipt<W: fmt::Write>(f: &mut fmt::Formatter<W>, receipt: Receipt) -> fmt::Result {
    match receipt {
        Receipt::Inserted { number, key, value } => write!(f, "inserted {number} {key} {value}"),
        Receipt::Deleted { number, key, value } => write!(f, "deleted {number} {key} {value}"),
        Receipt::Modified {
            number,
            key,
            old,
            value,
        } => write!(f, "modified {number} {key} {old} {value}"),
        Receipt::Looked { at, key, found } => write!(f, "looked {at} {key} {found:?}"),
        Receipt::Shaped { kind, page, other } => {
            write!(f, "shaped {kind:?} {page} {}", OrDash(other))
        }
    }
}

/// Returns the number of a refusal in their order, counted from 1.
fn number_of(reason: Refused) -> u8 {
    match reason {
        Refused::Absent => 1,
        Refused::Stale => 2,
        Refused::Frozen => 3,
        Refused::WrongKind => 4,
        Refused::OutOfRange => 5,
        Refused::Present(_) | Refused::NoKey => 6,
        Refused::NotBare => 7,
        Refused::BadSeparator => 8,
        Refused::NotSame => 9,
        Refused::WrongStage => 10,
        Refused::WrongParent => 11,
        Refused::TermStands(_) => 12,
        Refused::Leftmost => 13,
        Refused::NotNeighbours => 14,
        Refused::Deep => 15,
        Refused::TooTall => 16,
        Refused::TableFull => 17,
        Refused::Worn => 18,
    }
}

fn write_refusal<W: fmt::Write>(f: &mut fmt::Formatter<W>, reason: Refused) -> fmt::Result {
    let number = number_of(reason);
    match reason {
        Refused::Present(value) => write!(f, "refused {number} Present {value}"),
        Refused::TermStands(pid) => write!(f, "refused {number} TermStands {pid}"),
        _ => write!(f, "refused {number} {reason:?}"),
    }
}

fn write_view<W: fmt::Write>(f: &mut fmt::Formatter<W>, view: &View) -> fmt::Result {
    write!(f, "{} {} {:?}", view.pid, view.version, view.stage)?;
    write!(f, " {} {} {}", view.low, view.high, OrDash(view.right))?;
    write!(f, " {} {} {}", view.level, view.count, view.depth)
}

fn write_look<W: fmt::Write>(f: &mut fmt::Formatter<W>, look: Option<Look>) -> fmt::Result {
    match look {
        None => f.write_str("nowhere"),
        Some(
            Look {
                found: Some(value),
                at,
            },
        ) => write!(f, "found {value} at {at}"),
        Some(Look { found: None, at }) => write!(f, "none at {at}"),
    }
}

fn write_place<W: fmt::Write>(f: &mut fmt::Formatter<W>, place: &Place) -> fmt::Result {
    write!(f, "{} {} {}", place.pid, place.level, place.from)
}

fn write_next<W: fmt::Write>(f: &mut fmt::Formatter<W>, next: &Next) -> fmt::Result {
    match &next.go {
        Go::Gone => f.write_str("gone")?,
        Go::Right(place) => {
            f.write_str("right ")?;
            write_place(f, place)?;
        }
        Go::Down(place) => {
            f.write_str("down ")?;
            write_place(f, place)?;
        }
        Go::Here(view) => {
            f.write_str("here ")?;
            write_view(f, view)?;
        }
    }
    match next.todo {
        None => f.write_str(" todo none"),
        Some(Todo::Post(pid)) => write!(f, " todo post {pid}"),
        Some(Todo::Merge(pid)) => write!(f, " todo merge {pid}"),
        Some(Todo::DropTerm(pid)) => write!(f, " todo drop_term {pid}"),
    }
}

fn write_survey<W: fmt::Write>(f: &mut fmt::Formatter<W>, survey: &Survey) -> fmt::Result {
    let book = survey.book;
    write!(f, "levels {}", survey.levels)?;
    write!(f, " inserted {} removed {}", book.inserted, book.removed)?;
    for leaf in survey.leaves.iter() {
        write!(f, " | {} {leaf} {:?}", leaf.pid, leaf.stage)?;
    }
    Ok(())
}

fn write_pairs<W: fmt::Write>(f: &mut fmt::Formatter<W>, pairs: &[(Key, u64)]) -> fmt::Result {
    if pairs.is_empty() {
        return f.write_str("-");
    }
    let mut blank = "";
    for (key, value) in pairs {
        write!(f, "{blank}{key}:{value}")?;
        blank = " ";
    }
    Ok(())
}
