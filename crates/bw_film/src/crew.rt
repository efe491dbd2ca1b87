//! What each worker of a trace does.

ghost use Rattle.std.specs.Prelude.{◌≡◌, ◌<◌, ◌+◌, [], IfOk, length};
ghost use Rattle.bw_film.specs.Crews.{AnswersRow, BeginsRow, IsCrew, IsFirst, IsRowAt};

use bw_delta::NoMemory;
use bw_procedures::Reply;
use bw_texts::Row;
use std::alloc::Global;

/// A row of a trace, with its number, counted from 1.
#[derive(Clone, Copy, Debug, PartialEq, Eq)]
pub struct NumberedRow {
    pub number: usize,
    pub row: Row,
}

/// A row that is done, and the reply to it.
#[derive(Clone, Copy, Debug, PartialEq, Eq)]
pub struct AnsweredRow {
    pub row: NumberedRow,
    pub reply: Reply,
}

/// What a worker of a trace does at a moment.
#[derive(Clone, Copy, Debug, PartialEq, Eq)]
pub struct Standing {
    /// The worker's number, counted from 0.
    pub worker: u32,
    /// The last of its rows that is done.
    pub done: Option<AnsweredRow>,
    /// The row that it does now.
    pub doing: Option<NumberedRow>,
    /// The first of its rows that it hasn't begun.
    pub next: Option<NumberedRow>,
}

/// Returns what this many workers do before the first row.
#[tactic(auto, using(crate::proofs::Crews::crew_more, crate::proofs::Crews::crew_none))]
pub(crate) fn crew_of(alloc: Global, rows: &[Row], workers: u32) -> Result<Vec<Standing>, NoMemory>
    ensures many { IfOk result (λ crew. length crew.items ≡ workers) }
    ensures before { IfOk result (λ crew. IsCrew rows.now [] 0 crew.items) }
{
    let mut crew = Vec::new(alloc);
    for worker in 0..workers {
        crew.push(Standing {
            worker,
            done: None,
            doing: None,
            next: next_of(rows, 0, worker),
        })?;
    }
    Ok(crew)
}

/// Notes that the row at the place is begun.
#[tactic(auto, using(crate::proofs::Crews::begins, crate::proofs::Crews::begins_apart))]
pub(crate) fn begin(crew: &mut Vec<Standing>, rows: &[Row], place: usize)
    requires { place < length rows.now }
    ensures { BeginsRow rows.now place crew.old.items crew.new.items }
{
    let row = numbered_row(rows, place);
    let worker = row.row.worker as usize;
    if worker < crew.len() {
        crew[worker] = Standing {
            doing: Some(row),
            next: next_of(rows, place + 1, row.row.worker),
            ..crew[worker]
        };
    }
}

/// Notes that the row at the place is done, and its reply.
#[tactic(auto, using(crate::proofs::Crews::answers, crate::proofs::Crews::answers_apart))]
pub(crate) fn answer(crew: &mut Vec<Standing>, rows: &[Row], place: usize, reply: Reply)
    requires { place < length rows.now }
    ensures { AnswersRow rows.now place reply crew.old.items crew.new.items }
{
    let row = numbered_row(rows, place);
    let worker = row.row.worker as usize;
    if worker < crew.len() {
        crew[worker] = Standing {
            done: Some(AnsweredRow { row, reply }),
            doing: None,
            ..crew[worker]
        };
    }
}

/// Returns the row at the place.
#[tactic(auto, using(crate::proofs::Crews::row_at))]
fn numbered_row(rows: &[Row], place: usize) -> NumberedRow
    requires { place < length rows.now }
    ensures number { result.number ≡ place + 1 }
    ensures at { IsRowAt rows.now result.row.worker result }
{
    NumberedRow {
        number: place + 1,
        row: rows[place],
    }
}

/// Returns the worker's first row from the place on.
#[tactic(auto, using(crate::proofs::Crews::found, crate::proofs::Crews::found_none, crate::proofs::Crews::passed, crate::proofs::Crews::none_in))]
fn next_of(rows: &[Row], from: usize, worker: u32) -> Option<NumberedRow>
    ensures { IsFirst rows.now worker from (length rows.now) result }
{
    for place in from..rows.len() {
        let row = numbered_row(rows, place);
        if row.row.worker == worker {
            return Some(row);
        }
    }
    None
}
