//! What is said of a row that can't be read if somebody watches.

use crate::program::asked::{Asked, shown};
use bw_texts::{Part, row_fields};
use std::alloc::{AllocError, Global};

/// What a part of a row is called, where it stands, and what it may be.
#[derive(Clone, Copy)]
struct Form {
    called: &'static str,
    first: usize,
    /// The number of its fields.
    count: usize,
    may_be: &'static str,
}

/// What a number may be.
const NUMBER: &str = "1 to 20 digits of a number below 2^64";

/// Returns what a row has in place of the part that can't be read, and what that may be.
pub(crate) fn sentence_of_row(
    alloc: Global,
    asked: &Asked,
    row: u64,
    part: Part,
) -> Option<String> {
    let form = if asked.is_history() {
        form_in_history(part)
    } else {
        form_in_trace(part)
    };
    let fields = row_fields(alloc, &asked.kept.text, row)?;
    let found = joined(alloc, &fields, form.first, form.count).ok()?;
    let (name, called, may_be) = (asked.name(), form.called, form.may_be);
    format!(in alloc; "row {row} of {name}: {called} is {found:?}, and may be {may_be}").ok()
}

fn form_in_trace(part: Part) -> Form {
    let (called, first, count, may_be) = match part {
        Part::Fields => ("the row", 0, usize::MAX, "WORKER,OP,KEY,VALUE"),
        Part::Worker => ("WORKER", 0, 1, "a number below --workers"),
        Part::Op => ("OP", 1, 1, "put, set, get, del or clr"),
        Part::Key => ("KEY", 2, 1, NUMBER),
        Part::Value | Part::Old => (
            "VALUE",
            3,
            1,
            "1 to 20 digits of a number below 2^64 after put, set and clr, and empty after get, del and clr",
        ),
    };
    Form {
        called,
        first,
        count,
        may_be,
    }
}

fn form_in_history(part: Part) -> Form {
    let (called, first, count, may_be) = match part {
        Part::Fields => (
            "the row",
            0,
            usize::MAX,
            "WORKER,OP,NUMBER,KEY,VALUE, with one field more after mod",
        ),
        Part::Worker => (
            "WORKER",
            0,
            1,
            "a number below 64, or end, below which there is no worker",
        ),
        Part::Op => ("OP", 1, 1, "ins, mod, del, hit or none, or pair after end"),
        Part::Key => (
            "NUMBER,KEY",
            2,
            2,
            "two numbers below 2^64 of 1 to 20 digits, after end 0 and a key above the one before",
        ),
        Part::Value => (
            "VALUE",
            4,
            1,
            "1 to 20 digits of a number below 2^64, and empty after none",
        ),
        Part::Old => ("the sixth field", 5, 1, NUMBER),
    };
    Form {
        called,
        first,
        count,
        may_be,
    }
}

/// Returns so many of the fields from the first on, or what is shown of them, with commas between.
fn joined(
    alloc: Global,
    fields: &[String],
    first: usize,
    count: usize,
) -> Result<String, AllocError> {
    let end = first.saturating_add(count).min(fields.len());
    let mut text = String::new(alloc);
    for place in first..end {
        if place > first {
            text.push(',')?;
        }
        text.push_str(&fields[place])?;
    }
    shown(alloc, &text)
}
