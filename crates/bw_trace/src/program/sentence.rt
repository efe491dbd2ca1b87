//! What is said of a fault if somebody watches: what was found, what is allowed, and where.

use crate::program::asked::Asked;
use crate::program::fault::Fault;
use crate::program::options::Field;
use crate::program::row_sentence::sentence_of_row;
use crate::program::run_sentence::sentence_of_run;
use bw_scripts::{MOST_LINES, ScriptFault};
use bw_texts::{MOST_HISTORY_ROWS, MOST_TRACE_ROWS, TextFault};
use std::alloc::Global;

/// What the lines of a script may be.
const LINES: &str = "one of those in examples/scripts.md, below one that makes a table";

/// Returns the sentence after a fault, if there is more to say of it and memory for that.
pub(crate) fn sentence_of(alloc: Global, asked: &Asked, fault: &Fault) -> Option<String> {
    match fault {
        Fault::Usage(_) => None,
        Fault::Bad(field) => sentence_of_field(alloc, asked, *field),
        Fault::Text(fault) => sentence_of_text(alloc, asked, *fault),
        Fault::Run(fault) => sentence_of_run(alloc, asked, *fault),
        Fault::Script(fault) => sentence_of_script(alloc, asked, *fault),
        Fault::Open(name, why) => {
            let why = why.as_ref()?;
            format!(in alloc; "{name}: {why}").ok()
        }
        Fault::Write => "standard output can't be written to".to_string(alloc).ok(),
        Fault::Memory => sentence_of_memory(alloc),
    }
}

/// Returns which value an option has, and which it may have.
fn sentence_of_field(alloc: Global, asked: &Asked, field: Field) -> Option<String> {
    let name = field.name();
    let found = asked.number(name)?;
    match field {
        Field::From(moments) => {
            let last = moments.saturating_sub(1);
            format!(in alloc; "--{name} is {found}, and may be 0 to {last}").ok()
        }
        field => {
            let range = field.range();
            format!(in alloc; "--{name} is {found}, and may be {range}").ok()
        }
    }
}

fn sentence_of_text(alloc: Global, asked: &Asked, fault: TextFault) -> Option<String> {
    match fault {
        TextFault::Row(row, part) => sentence_of_row(alloc, asked, row, part),
        TextFault::Read => sentence_of_read(alloc, asked),
        TextFault::Rows if asked.is_history() => {
            sentence_of_length(alloc, asked, "rows", MOST_HISTORY_ROWS, "history")
        }
        TextFault::Rows => sentence_of_length(alloc, asked, "rows", MOST_TRACE_ROWS, "trace"),
        TextFault::Memory => sentence_of_memory(alloc),
    }
}

/// Returns how many rows or lines there may be.
fn sentence_of_length(
    alloc: Global,
    asked: &Asked,
    rows: &str,
    most: u64,
    text: &str,
) -> Option<String> {
    let name = asked.name();
    format!(in alloc; "{name} has more than {most} {rows}, which is the most of a {text}").ok()
}

/// Returns where a read failed, and why.
fn sentence_of_read(alloc: Global, asked: &Asked) -> Option<String> {
    let (name, count) = (asked.name(), asked.kept.text.len());
    let why = asked.kept.failure.as_ref()?;
    format!(in alloc; "{name} can't be read behind its first {count} bytes: {why}").ok()
}

fn sentence_of_script(alloc: Global, asked: &Asked, fault: ScriptFault) -> Option<String> {
    let name = asked.name();
    match fault {
        ScriptFault::Line(number) => sentence_of_line(alloc, asked, number),
        ScriptFault::NoTable => {
            format!(in alloc; "no line of {name} makes a table, as 'table 4 4 64 100 0' does").ok()
        }
        ScriptFault::Lines => sentence_of_length(alloc, asked, "lines", MOST_LINES, "script"),
        ScriptFault::Read => sentence_of_read(alloc, asked),
        ScriptFault::Memory => sentence_of_memory(alloc),
    }
}

/// Returns what the line with this number is, counted from 1, and what it may be.
fn sentence_of_line(alloc: Global, asked: &Asked, number: u64) -> Option<String> {
    let (name, line) = (asked.name(), asked.line(alloc, number)?);
    format!(in alloc; "line {number} of {name} is {line:?}, and may be {LINES}").ok()
}

/// Returns what takes less memory.
pub(crate) fn sentence_of_memory(alloc: Global) -> Option<String> {
    "fewer rows, and less of --pages, --workers or --trees, take less memory"
        .to_string(alloc)
        .ok()
}
