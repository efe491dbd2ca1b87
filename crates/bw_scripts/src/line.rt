//! The lines of a script: a new table, a step, or a question.

ghost use Rattle.std.specs.Prelude.{◌≡◌};
ghost use Rattle.bw_scripts.specs.declared.line.Unread.TheVariants as unread;
ghost use Rattle.bw_scripts.specs.Lines.{asks_for_nothing, unread_base};

use crate::numbers::{level, number, page, small};
use crate::steps::step;
use bw_delta::{BaseFault, NoMemory};
use bw_keys::{Config, Key, Pid};
use bw_step::{Place, Step};
use std::alloc::{AllocError, AllocFailed, Global};

/// Returns whether the line is empty or begins with `#`.
pub(crate) fn asks_for_nothing(line: &str) -> bool
    ensures { result ≡ asks_for_nothing line.now }
{
    line.is_empty() || line.starts_with('#')
}

/// What a line asks for.
#[derive(Drop)]
pub(crate) enum Line {
    Table(Config),
    Step(Step<Global>),
    Question(Question),
}

/// A question about the table.
#[derive(Clone, Copy)]
pub(crate) enum Question {
    Peek(Pid),
    Look(Pid, Key),
    Visit(Place, Key, u8),
    Root,
    Locate(Key),
    Survey,
    Pairs,
}

/// Why a line can't be read.
#[derive(Clone, Copy)]
pub(crate) enum Unread {
    Words,
    /// The entries of a step's base page don't make a page.
    BadEntries,
    NoMemory,
}

impl From<NoMemory> for Unread {
    ghost from_gives = { λ _ result. result ≡ unread.NoMemory };

    fn from(_: NoMemory) -> Unread {
        Unread::NoMemory
    }
}

impl From<AllocError> for Unread {
    ghost from_gives = { λ _ result. result ≡ unread.NoMemory };

    fn from(_: AllocError) -> Unread {
        Unread::NoMemory
    }
}

impl<T: Drop> From<AllocFailed<T>> for Unread {
    ghost from_gives = { λ _ result. result ≡ unread.NoMemory };

    fn from(_: AllocFailed<T>) -> Unread {
        Unread::NoMemory
    }
}

impl From<BaseFault> for Unread {
    ghost from_gives = { λ fault result. result ≡ unread_base fault };

    fn from(fault: BaseFault) -> Unread {
        match fault {
            BaseFault::BadEntries => Unread::BadEntries,
            BaseFault::NoMemory => Unread::NoMemory,
        }
    }
}

fn table(words: &[&str]) -> Result<Config, Unread> {
    let [fanout, chain, pages, tries, first_version] = words else {
        return Err(Unread::Words);
    };
    Ok(Config {
        fanout: small(fanout)?,
        chain: small(chain)?,
        pages: small(pages)?,
        tries: small(tries)?,
        first_version: number(first_version)?,
    })
}

fn visit(words: &[&str]) -> Result<Question, Unread> {
    let [pid, at, from, key, goal] = words else {
        return Err(Unread::Words);
    };
    let place = Place {
        pid: page(pid)?,
        level: level(at)?,
        from: number(from)?,
    };
    Ok(Question::Visit(place, number(key)?, level(goal)?))
}

/// Reads a question, or returns None if the words aren't one.
fn asked(words: &[&str]) -> Result<Option<Question>, Unread> {
    Ok(Some(match words {
        ["peek", pid] => Question::Peek(page(pid)?),
        ["look", pid, key] => Question::Look(page(pid)?, number(key)?),
        ["visit", rest @ ..] => visit(rest)?,
        ["root"] => Question::Root,
        ["locate", key] => Question::Locate(number(key)?),
        ["survey"] => Question::Survey,
        ["pairs"] => Question::Pairs,
        _ => return Ok(None),
    }))
}

impl Line {
    /// Reads a line: words between single blanks.
    pub(crate) fn read(alloc: Global, line: &str) -> Result<Line, Unread> {
        let words: Vec<&str> = line.split(' ').collect(alloc)?;
        if let ["table", rest @ ..] = words.as_slice() {
            return Ok(Line::Table(table(rest)?));
        }
        match asked(words.as_slice())? {
            Some(question) => Ok(Line::Question(question)),
            None => Ok(Line::Step(step(alloc, words.as_slice())?)),
        }
    }
}
