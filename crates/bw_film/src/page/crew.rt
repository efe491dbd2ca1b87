//! The table of what the workers do.

ghost use Rattle.std.specs.Prelude.{◌≡◌, ◌++◌, OnOk, Some, decimal, flat_map};
ghost use Rattle.bw_procedures.specs.Texts.{reply_text};
ghost use Rattle.bw_film.specs.CrewPages.{answer_text, bare_text, crew_with, done_cell};
ghost use Rattle.bw_film.specs.CrewPages.{fault_of, fault_text, fault_words, numbered_text};
ghost use Rattle.bw_film.specs.CrewPages.{row_cell, standing_text, worker_cell};

use crate::crew::{AnsweredRow, NumberedRow, Standing};
use bw_delta::NoMemory;
use bw_procedures::{Cleared, Done, Fault, Reply};
use bw_texts::write_trace;
use itoa::Buffer;
use std::alloc::{AllocError, Global};

/// Appends a table with a line for each worker below its head, if there is one.
pub(crate) fn push_crew(
    alloc: Global,
    page: &mut Vec<u8>,
    head: &str,
    crew: &[Standing],
) -> Result<(), NoMemory>
    ensures { OnOk result (page.new.items ≡ page.old.items ++ crew_with head.now crew.now) }
{
    if crew.is_empty() {
        return Ok(());
    }
    page.extend_from_slice(head.as_bytes())?;
    push_standings(alloc, page, crew)?;
    page.extend_from_slice(b"</tbody>\n</table>\n")?;
    Ok(())
}

/// Appends a line for each worker.
fn push_standings(alloc: Global, page: &mut Vec<u8>, crew: &[Standing]) -> Result<(), NoMemory>
    ensures { OnOk result (page.new.items ≡ page.old.items ++ flat_map standing_text crew.now) }
{
    for standing in crew {
        push_standing(alloc, page, *standing)?;
    }
    Ok(())
}

fn push_standing(alloc: Global, page: &mut Vec<u8>, standing: Standing) -> Result<(), NoMemory>
    ensures { OnOk result (page.new.items ≡ page.old.items ++ standing_text standing) }
{
    push_worker(page, standing.worker, standing.doing.is_some())?;
    push_done(alloc, page, standing.done)?;
    push_row(alloc, page, standing.doing)?;
    push_row(alloc, page, standing.next)?;
    page.extend_from_slice(b"</tr>\n")?;
    Ok(())
}

/// Begins a worker's line with its number, and whether it acts.
fn push_worker(page: &mut Vec<u8>, worker: u32, acts: bool) -> Result<(), AllocError>
    ensures { OnOk result (page.new.items ≡ page.old.items ++ worker_cell worker acts) }
{
    if acts {
        return push_head(
            page,
            "<tr class=\"acts\"><th scope=\"row\">",
            worker,
            " acts</th>",
        );
    }
    push_head(page, "<tr><th scope=\"row\">", worker, "</th>")
}

/// Appends the worker's number between the texts.
fn push_head(page: &mut Vec<u8>, before: &str, worker: u32, behind: &str) -> Result<(), AllocError>
    ensures { OnOk result (page.new.items
        ≡ page.old.items ++ (before.now ++ decimal worker ++ behind.now)) }
{
    let mut digits = Buffer::new();
    page.extend_from_slice(before.as_bytes())?;
    page.extend_from_slice(digits.format(worker).as_bytes())?;
    page.extend_from_slice(behind.as_bytes())
}

/// Appends a cell with the row and the reply, if there is one.
fn push_done(alloc: Global, page: &mut Vec<u8>, done: Option<AnsweredRow>) -> Result<(), NoMemory>
    ensures { OnOk result (page.new.items ≡ page.old.items ++ done_cell done) }
{
    page.extend_from_slice(b"<td>")?;
    if let Some(done) = done {
        push_numbered(alloc, page, done.row)?;
        push_reply(alloc, page, done.reply)?;
    }
    page.extend_from_slice(b"</td>")?;
    Ok(())
}

/// Appends a cell with the row, if there is one.
fn push_row(alloc: Global, page: &mut Vec<u8>, row: Option<NumberedRow>) -> Result<(), NoMemory>
    ensures { OnOk result (page.new.items ≡ page.old.items ++ row_cell row) }
{
    page.extend_from_slice(b"<td>")?;
    if let Some(row) = row {
        push_numbered(alloc, page, row)?;
    }
    page.extend_from_slice(b"</td>")?;
    Ok(())
}

/// Appends the row's number, and the row as a trace has it.
fn push_numbered(alloc: Global, page: &mut Vec<u8>, it: NumberedRow) -> Result<(), NoMemory>
    ensures { OnOk result (page.new.items ≡ page.old.items ++ numbered_text it) }
{
    let Ok(written) = write_trace(Vec::new(alloc), &[it.row]) else {
        return Err(NoMemory);
    };
    let mut digits = Buffer::new();
    page.extend_from_slice(digits.format(it.number).as_bytes())?;
    page.extend_from_slice(b": <code>")?;
    page.extend_from_slice(&written)?;
    page.extend_from_slice(b"</code>")?;
    Ok(())
}

/// Appends the reply, on a line of its own.
fn push_reply(alloc: Global, page: &mut Vec<u8>, reply: Reply) -> Result<(), NoMemory>
    ensures { OnOk result (page.new.items ≡ page.old.items ++ answer_text reply) }
{
    let (bare, fault) = parted(reply);
    let text = bare.to_string(alloc)?;
    page.extend_from_slice(b"<br>answered <code>")?;
    page.extend_from_slice(text.as_bytes())?;
    push_fault(page, fault)?;
    page.extend_from_slice(b"</code>")?;
    Ok(())
}

/// Returns the reply without the fault beside it, and that fault.
fn parted(reply: Reply) -> (Reply, Option<Fault>)
    ensures text { reply_text result.0 ≡ Some (bare_text reply) }
    ensures fault { result.1 ≡ fault_of reply }
{
    match reply {
        Reply::Put(Done { reply, fault }) => (Reply::Put(Done { reply, fault: None }), fault),
        Reply::Set(Done { reply, fault }) => (Reply::Set(Done { reply, fault: None }), fault),
        Reply::Delete(Done { reply, fault }) => (Reply::Delete(Done { reply, fault: None }), fault),
        Reply::Get(_) => (reply, None),
        Reply::Clear(Cleared { removed, fault }) => {
            (
                Reply::Clear(Cleared {
                    removed,
                    fault: None,
                }),
                fault,
            )
        }
    }
}

/// Appends the fault in brackets, if there is one.
fn push_fault(page: &mut Vec<u8>, fault: Option<Fault>) -> Result<(), AllocError>
    ensures { OnOk result (page.new.items ≡ page.old.items ++ fault_text fault) }
{
    if let Some(fault) = fault {
        page.extend_from_slice(b" (")?;
        page.extend_from_slice(fault_words(fault).as_bytes())?;
        page.extend_from_slice(b")")?;
    }
    Ok(())
}

/// Returns the fault's name. No clause says what its own text is.
fn fault_words(fault: Fault) -> &'static str
    ensures { result.now ≡ fault_words fault }
{
    match fault {
        Fault::Contended => "contended",
        Fault::NoMemory => "no memory",
        Fault::TableFull => "table full",
        Fault::TooTall => "too tall",
        Fault::Worn => "worn",
    }
}
