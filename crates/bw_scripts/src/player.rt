//! Playing of scripts, line by line.

ghost use Rattle.std.specs.Prelude.{◌≡◌, ◌↔◌, ◌<◌, ◌≤◌, ℕ, IsTrue, None, Some, Ok, IsOk, IfOk, IfErr};
ghost use Rattle.std.specs.Prelude.{OnErr, option_copied};
ghost use Rattle.bw_step.specs.ProposalView.{proposal_of};
ghost use Rattle.bw_law.specs.Refusals.{refusal};
ghost use Rattle.bw_scripts.specs.Answers.{IsAnswer, IsAnswered, IsReported};
ghost use Rattle.bw_scripts.specs.Faults.{IsFaultAt, IsLineFault};
ghost use Rattle.bw_scripts.specs.Lines.{asks_for_nothing};
ghost use Rattle.bw_scripts.specs.Played.{one_more};

use crate::answer::Answer;
use crate::fault::ScriptFault;
use crate::line::{Line, Question, Unread, asks_for_nothing};
use bw_delta::NoMemory;
use bw_keys::{Config, Key, Pid};
use bw_step::{Refused, Step, Survey, View};
use bw_table::{NewFault, Table};
use std::alloc::Global;
use std::io;

/// The most lines of a script that is read from a reader.
pub const MOST_LINES: u64 = 1_000_000;

/// All that the public calls of a table show.
#[derive(Drop)]
struct Picture {
    survey: Survey,
    pairs: Vec<(Key, u64)>,
    pages: Vec<Option<View>>,
}

impl Picture {
    fn of(alloc: Global, table: &Table<Global>) -> Result<Picture, NoMemory> {
        let mut pages = Vec::new(alloc);
        for id in 0..table.config().pages {
            pages.push(table.peek(Pid(id)))?;
        }
        Ok(Picture {
            survey: table.survey(alloc)?,
            pairs: table.pairs(alloc)?,
            pages,
        })
    }

    fn is(&self, other: &Picture) -> bool {
        self.pages == other.pages
            && self.pairs == other.pairs
            && self.survey.levels == other.survey.levels
            && self.survey.leaves == other.survey.leaves
            && self.survey.book == other.survey.book
    }
}

/// Proposes a step that `check` refuses, and compares the table before and after.
fn refuse(
    alloc: Global,
    table: &mut Table<Global>,
    step: Step<Global>,
    foretold: Refused,
) -> Result<Answer, NoMemory>
    requires { refusal table.old (proposal_of step) ≡ Some foretold }
    ensures reported { IfOk result (λ answer. IsReported table.old answer table.new) }
    ensures unchanged { table.new ≡ table.old }
{
    let before = Picture::of(alloc, table)?;
    match table.install(step) {
        Ok(receipt) => Ok(Answer::RefusalForetold(foretold, receipt)),
        Err(reason) if reason != foretold => Ok(Answer::OtherForetold(reason)),
        Err(reason) if Picture::of(alloc, table)?.is(&before) => Ok(Answer::Refused(reason)),
        Err(reason) => Ok(Answer::Changed(reason)),
    }
}

/// Checks a step, and proposes it.
#[tactic(auto, using(crate::proofs::Foretelling::is_fine, crate::proofs::Foretelling::is_foretold))]
fn propose(alloc: Global, table: &mut Table<Global>, step: Step<Global>) -> Result<Answer, NoMemory>
    ensures reported { IfOk result (λ answer. IsReported table.old answer table.new) }
    ensures unchanged { OnErr result (table.new ≡ table.old) }
{
    match table.check(&step) {
        Err(foretold) => refuse(alloc, table, step, foretold),
        Ok(()) => match table.install(step) {
            Ok(receipt) => Ok(Answer::Accepted(receipt)),
            Err(reason) => Ok(Answer::OtherForetold(reason)),
        },
    }
}

fn ask(alloc: Global, table: &Table<Global>, question: Question) -> Result<Answer, NoMemory>
    ensures { IfOk result (λ answer. IsReported table.now answer table.now) }
{
    Ok(match question {
        Question::Peek(pid) => Answer::Page(table.peek(pid)),
        Question::Look(pid, key) => Answer::Look(table.look(pid, key)),
        Question::Visit(place, key, goal) => Answer::Next(table.visit(place, key, goal)),
        Question::Root => Answer::Root(table.root()),
        Question::Locate(key) => Answer::Leaf(table.locate(key)),
        Question::Survey => Answer::Survey(table.survey(alloc)?),
        Question::Pairs => Answer::Pairs(table.pairs(alloc)?),
    })
}

/// A player of a script: its table, once there is one, and the number of lines played.
///
/// The words of a line stand between single blanks. A line that is empty or begins with `#` asks
/// for nothing. A line that isn't played leaves the table unchanged, and the next may be played.
#[derive(Drop)]
pub struct Player {
    alloc: Global,
    table: Option<Table<Global>>,
    lines: u64,
}

impl Player {
    /// Creates a player without a table.
    pub fn new(alloc: Global) -> Player
        ensures table { result.table ≡ None }
        ensures lines { result.lines ≡ 0 }
    {
        Player {
            alloc,
            table: None,
            lines: 0,
        }
    }

    /// Returns the number of lines played, with those that ask for nothing or can't be read.
    pub fn lines(&self) -> u64
        ensures { result ≡ self.now.lines }
    {
        self.lines
    }

    /// Returns the table, if a line has made one.
    pub fn table(&self) -> Option<&Table<Global>>
        ensures { option_copied result ≡ self.now.table }
    {
        self.table.as_ref()
    }

    /// Returns the table, if a line has made one.
    pub fn into_table(self) -> Option<Table<Global>>
        ensures { result ≡ self.table }
    {
        self.table
    }

    /// Returns the next line of a script, as its reader gave it.
    ///
    /// # Errors
    ///
    /// Fails with the line if the reader failed at it, and with too many lines if it is one more than
    /// [`MOST_LINES`].
    pub fn next_line(&self, read: io::Result<String>) -> Result<String, ScriptFault>
        ensures line { IfOk result (λ line. read ≡ Ok line) }
        ensures within { IsOk result → one_more self.now.lines ≤ MOST_LINES }
        ensures many { IfErr result (λ fault. IsOk read
            → (fault ≡ ScriptFault.Lines) × (MOST_LINES < one_more self.now.lines)) }
        ensures fault { IfErr result (IsLineFault (one_more self.now.lines)) }
    {
        let number = self.lines.saturating_add(1);
        match read {
            Err(error) => Err(ScriptFault::of_reader(number, &error)),
            Ok(_) if number > MOST_LINES => Err(ScriptFault::Lines),
            Ok(line) => Ok(line),
        }
    }

    /// Plays the next line, and returns its answer, or None if it asks for nothing.
    ///
    /// # Errors
    ///
    /// Fails with the line if it can't be read, or if memory runs out. The table is then unchanged.
    pub fn play(&mut self, line: &str) -> Result<Option<Answer>, ScriptFault>
        ensures counted { self.new.lines ≡ one_more self.old.lines }
        ensures answered { IfOk result (λ answer. IsAnswered self.old.table answer self.new.table) }
        ensures nothing { (result ≡ Ok None) ↔ IsTrue (asks_for_nothing line.now) }
        ensures unchanged { OnErr result (self.new.table ≡ self.old.table) }
        ensures fault { IfErr result (IsFaultAt self.new.lines) }
    {
        self.lines = self.lines.saturating_add(1);
        if asks_for_nothing(line) {
            return Ok(None);
        }
        match self.answer(line) {
            Ok(answer) => Ok(Some(answer)),
            Err(Unread::BadEntries) => Ok(Some(Answer::BadEntries)),
            Err(Unread::Words) => Err(ScriptFault::Line(self.lines)),
            Err(Unread::NoMemory) => Err(ScriptFault::Memory),
        }
    }

    /// Carries out a line. A step or a question before there is a table can't be read.
    fn answer(&mut self, line: &str) -> Result<Answer, Unread>
        ensures counted { self.new.lines ≡ self.old.lines }
        ensures answered { IfOk result (λ answer. IsAnswer self.old.table answer self.new.table) }
        ensures unchanged { OnErr result (self.new.table ≡ self.old.table) }
    {
        let alloc = self.alloc;
        match (Line::read(alloc, line)?, &mut self.table) {
            (Line::Table(config), _) => Ok(self.make_table(config)?),
            (Line::Step(step), Some(table)) => Ok(propose(alloc, table, step)?),
            (Line::Question(question), Some(table)) => Ok(ask(alloc, table, question)?),
            (_, None) => Err(Unread::Words),
        }
    }

    fn make_table(&mut self, config: Config) -> Result<Answer, NoMemory>
        ensures counted { self.new.lines ≡ self.old.lines }
        ensures answered { IfOk result (λ answer. IsAnswer self.old.table answer self.new.table) }
        ensures unchanged { OnErr result (self.new.table ≡ self.old.table) }
    {
        match Table::new(self.alloc, self.alloc, config) {
            Ok(table) => {
                self.table = Some(table);
                Ok(Answer::Made)
            }
            Err(NewFault::BadConfig(bad)) => Ok(Answer::BadConfig(bad)),
            Err(NewFault::NoMemory) => Err(NoMemory),
        }
    }
}
