//! The locked table, with the writing end of the published pair.

ghost use Rattle.std.specs.Prelude.{◌≡◌, ◌<◌, ◌++◌, ◌∷◌, ◌↔◌, [], None, length, All, IsOk, IfOk, IfErr, OnOk, OnErr};
ghost use Rattle.bw_step.specs.ProposalView.{proposal_of};
ghost use Rattle.bw_step.specs.Steps.{IsReceiptOf};
ghost use Rattle.bw_law.specs.Laws.{MapAfter};
ghost use Rattle.bw_law.specs.Refusals.{refusal};
ghost use Rattle.bw_law.specs.Tables.{new_table};
ghost use Rattle.bw_table.specs.Answers.{IsDenialFor};
ghost use Rattle.bw_table.specs.Actions.{IsPerformed, steps_for};
ghost use Rattle.bw_table.specs.Orders.{HasPairs};
ghost use Rattle.bw_tree.specs.Shares.{no_changes, CountsIn, CountsPerformed};
ghost use Rattle.bw_step.specs.Actions.{Reports};
ghost use Rattle.bw_tree.specs.Trees.{IsTree, IsClosed, Leads, OpensFor};
ghost use Rattle.bw_snap.specs.declared.note.Note.TheVariants as notes;
ghost use Rattle.bw_snap.specs.Ends.{Appends, unpublished, noted_since};
ghost use Rattle.bw_snap.specs.Notes.{held_note};
ghost use Rattle.bw_snap.specs.Trees.{IsPublished, IsWhyNotUnlessWant, IsSnapFault, MayBeRead, is_bad_reader_number, published_as_it_is};

use crate::ends::{WritingEnd, advance, append, begin, caught_up, newcomer};
use crate::fault::SnapFault;
use crate::front::{Announcements, Front, Head, Naming};
use crate::note::Note;
use crate::reader::Reader;
use crate::stamp::Stamp;
use bw_delta::{NoMemory, Spare};
use bw_keys::{Config, Pid, Wished};
use bw_step::{Action, Denied, Performed, Receipt, Step, Unperformed};
use bw_table::Table;
use bw_tree::{Blanks, Booked, MadeBy, MissingShare, NewFault, Share};
use std::alloc::Global;
use std::marker::Model;
use std::sync::Wait;
use std::sync::ledger::Ledger;

/// The most readers that a tree may have.
pub const MAX_READERS: u32 = 16;

/// A booked table, with the writing end of its two published copies and the front of all that was
/// announced. Steps taken since the last publication are pending. The last change made at once is
/// held back, until the next note: so its note needs no memory once it is made.
pub struct Published<R: Wait + Drop, N: Naming, D: Ledger> {
    booked: Booked<Global, N, D>,
    writer: WritingEnd<N>,
    held: Option<(Pid, Action)>,
    head: Head<N>,
    announced: Front,
    rt: R,
}

impl<R: Wait + Drop, N: Naming, D: Ledger> Model for Published<R, N, D> {
    ghost use Rattle.std.specs.Prelude.{◌≡◌};
    ghost use Rattle.bw_snap.specs.Codes.{published_code};
    ghost use Rattle.bw_snap.specs.Trees.{PublishedValue};
    ghost use Rattle.bw_snap.specs.Ends.{LagsBehind, published_value};

    ghost Value = { PublishedValue };

    ghost coded = { published_code };

    ghost view = { λ p. published_value p.booked p.writer p.held };

    ghost invariant = { λ p.
        LagsBehind N.config N.announcements p.writer p.held p.booked p.announced };
}

impl<R: Wait + Drop, N: Naming, D: Ledger> Drop for Published<R, N, D> {
    fn drop(self) {
        let Self {
            booked: _booked,
            writer,
            held: _,
            head: _head,
            announced: _announced,
            rt,
        } = self;
        drop(writer.take(&rt));
    }
}

impl<R: Wait + Drop, N: Naming, D: Ledger> Published<R, N, D> {
    /// Returns a table without pairs, published as it is, and a share of nothing for each worker. All
    /// lies in the machine's memory. There is room for `readers` readers, 1 to `MAX_READERS`.
    pub fn new(
        rt: R,
        machine: Global,
        config: Config,
        blanks: Blanks,
        announcements: Announcements,
        readers: u32,
    ) -> Result<(Published<R, N, D>, Vec<Share<N, D>>), SnapFault>
        requires ledgers { OpensFor N.Ledger N.config D.Ledger config blanks }
        requires announcements { announcements.seen.book ≡ N.announcements }
        ensures new { IfOk result (λ made. made.0 ≡ published_as_it_is (new_table config)) }
        ensures count { IfOk result (λ made. length made.1.items ≡ blanks.workers) }
        ensures shares { IfOk result (λ made. All (λ share. share ≡ no_changes) made.1.items) }
        ensures fine { OnOk result (MayBeRead config blanks.workers readers) }
        ensures fault { IfErr result (IsSnapFault config blanks.workers readers) }
    {
        let (booked, shares) = new_booked(machine, config, blanks, readers)?;
        let (head, announced) = announcements.named::<N>();
        // for each reader its own, and one for a stamp
        let places = 2 * readers as usize;
        let writer = match begin(machine, config, &announced, places) {
            Ok(writer) => writer,
            Err(NoMemory) => return Err(SnapFault::NoMemory),
        };
        let published = Published {
            booked,
            writer,
            held: None,
            head,
            announced,
            rt,
        };
        Ok((published, shares))
    }

    /// Returns the table, to which the pending steps lead from the published one.
    #[inline(always)]
    pub fn table(&self) -> &Table<Global>
        ensures same { result.now ≡ self.now.table }
        ensures tree { IsTree result.now }
        ensures published { IsPublished N.config self.now }
    {
        self.booked.table()
    }

    /// Returns how many pairs the map has, with what is pending.
    pub fn len(&self) -> u64
        ensures pairs { HasPairs self.now.table result }
    {
        self.booked.len()
    }

    /// Returns a new reader, while nothing is published.
    pub(crate) fn reader(&self) -> Result<Reader<N>, NoMemory>
        requires { self.now.list ≡ [] }
        ensures { IfOk result (λ reader. reader ≡ []) }
    {
        let inner = newcomer(self.writer.factory())?;
        Ok(Reader::over(inner, self.writer.published().front.again()))
    }

    /// Takes the step as `Booked::install` does, and leaves its twin pending for the published copies.
    #[inline(always)]
    pub fn install(
        &mut self,
        share: &mut Share<N, D>,
        step: Step<Global>,
        twin: Step<Global>,
    ) -> Result<Receipt, Denied>
        requires { proposal_of twin ≡ proposal_of step }
        ensures accepted { OnOk result (refusal self.old.table (proposal_of step) ≡ None) }
        ensures taken { IfOk result (Leads self.old.table (proposal_of step) self.new.table) }
        ensures reported { IfOk result (IsReceiptOf (proposal_of step)) }
        ensures map { OnOk result (MapAfter self.old.table (proposal_of step)) }
        ensures steps { OnOk result (self.new.pending ≡ self.old.pending ++ proposal_of step ∷ []) }
        ensures published { OnOk result (self.new.published ≡ self.old.published) }
        ensures list { OnOk result (self.new.list ≡ self.old.list) }
        ensures denied { IfErr result (IsDenialFor (refusal self.old.table (proposal_of step))) }
        ensures unchanged { OnErr result (self.new ≡ self.old) }
        ensures share { CountsIn share.old share.new result }
    {
        note_step(
            self.booked.table(),
            &mut self.writer,
            &mut self.held,
            &step,
            twin,
        )?;
        match self.booked.install(share, step) {
            Ok(receipt) => return Ok(receipt),
            Err(reason) => return Err(Denied::Refused(reason)),
        }
    }

    /// Performs the action as `Booked::perform` does, and leaves it pending for the published copies,
    /// which take memory for it. Reports a lack of memory also if there is no room for the note.
    #[inline(always)]
    pub fn perform(
        &mut self,
        machine: Global,
        share: &mut Share<N, D>,
        action: Action,
        spare: Option<Spare<Global>>,
    ) -> Result<Performed, Unperformed>
        ensures done { IfOk result (IsPerformed self.old.table action self.new.table) }
        ensures reports { IfOk result (Reports action) }
        ensures steps { IfOk result (λ it. self.new.pending
            ≡ self.old.pending ++ steps_for self.old.table it.page.0 action) }
        ensures published { OnOk result (self.new.published ≡ self.old.published) }
        ensures list { OnOk result (self.new.list ≡ self.old.list) }
        ensures why { IfErr result (IsWhyNotUnlessWant self.old.table action) }
        ensures unchanged { OnErr result (self.new ≡ self.old) }
        ensures share { CountsPerformed share.old share.new result }
    {
        match settle(&mut self.writer, &mut self.held) {
            Ok(()) => {}
            Err(NoMemory) => return Err(Unperformed::Denied(Denied::NoMemory)),
        }
        let done = self.booked.perform(machine, share, action, spare)?;
        self.held = note_of(action, done);
        Ok(done)
    }

    /// Publishes what is pending, and returns a stamp of the list that was published. Fails where
    /// memory is refused.
    pub fn publish(&mut self) -> Result<Stamp<N>, NoMemory>
        ensures table { OnOk result (self.new.table ≡ self.old.table) }
        ensures published { OnOk result (self.new.published ≡ self.old.table) }
        ensures list { OnOk result (self.new.list ≡ self.old.list ++ self.old.pending) }
        ensures pending { OnOk result (self.new.pending ≡ []) }
        ensures stamp { IfOk result (λ stamp. stamp ≡ self.new.list) }
        ensures unchanged { OnErr result (self.new ≡ self.old) }
    {
        settle(&mut self.writer, &mut self.held)?;
        self.announced.announce(&self.head, &self.writer, &self.rt);
        append(&mut self.writer, Note::Mark(self.announced.again()))?;
        match advance(&mut self.writer, &self.rt) {
            Ok(()) => {}
            Err(_) => return Err(NoMemory),
        }
        let inner = caught_up(&mut self.writer);
        Ok(Stamp::over(inner, self.writer.published().front.again()))
    }

    /// Returns the table, and asks for no share, as `Booked::into_table` does. The published copies
    /// are dropped.
    pub fn into_table(self) -> Table<Global>
        ensures table { result ≡ self.table }
        ensures config { result.config ≡ N.config }
        ensures tree { IsTree result }
    {
        self.into_booked().into_table()
    }

    /// Returns the table, as `Booked::close` does. The published copies are dropped.
    pub fn close(self, shares: Vec<Share<N, D>>) -> Result<Table<Global>, MissingShare>
        ensures table { IfOk result (λ table. table ≡ self.table) }
        ensures closed { IfOk result (IsClosed N.config shares.items) }
        ensures all { IsOk result ↔ (length shares.items ≡ N.parts) }
        ensures missing { OnErr result (length shares.items < N.parts) }
    {
        self.into_booked().close(shares)
    }

    /// Returns the booked table, and drops the published copies.
    fn into_booked(self) -> Booked<Global, N, D>
        ensures { result ≡ self.table }
    {
        let Self {
            booked,
            writer,
            held: _,
            head: _head,
            announced: _announced,
            rt,
        } = self;
        drop(writer.take(&rt));
        booked
    }
}

/// Puts the note that is held back after the others.
#[inline(always)]
fn settle<N: Naming>(
    writer: &mut WritingEnd<N>,
    held: &mut Option<(Pid, Action)>,
) -> Result<(), NoMemory>
    ensures desk { writer.new.desk ≡ writer.old.desk }
    ensures notes { noted_since writer.new held.new ≡ noted_since writer.old held.old }
    ensures settled { OnOk result (held.new ≡ None) }
    ensures all { OnOk result (unpublished writer.new ≡ noted_since writer.old held.old) }
{
    let Some((page, action)) = *held else {
        return Ok(());
    };
    append(writer, Note::Action(page, action))?;
    *held = None;
    Ok(())
}

/// Puts the twin of a step that the table takes after all notes.
#[inline(always)]
fn note_step<N: Naming>(
    table: &Table<Global>,
    writer: &mut WritingEnd<N>,
    held: &mut Option<(Pid, Action)>,
    step: &Step<Global>,
    twin: Step<Global>,
) -> Result<(), Denied>
    ensures desk { writer.new.desk ≡ writer.old.desk }
    ensures notes { Appends (notes.Step twin)
        (noted_since writer.old held.old) (noted_since writer.new held.new) result }
    ensures taken { OnOk result (refusal table.now (proposal_of step.now) ≡ None) }
    ensures denied { IfErr result (IsDenialFor (refusal table.now (proposal_of step.now))) }
{
    match table.check(step) {
        Ok(()) => {}
        Err(reason) => return Err(Denied::Refused(reason)),
    }
    match note(writer, held, Note::Step(twin)) {
        Ok(()) => Ok(()),
        Err(NoMemory) => Err(Denied::NoMemory),
    }
}

/// Puts the note after the others, with the one that is held back before it.
#[inline(always)]
fn note<N: Naming>(
    writer: &mut WritingEnd<N>,
    held: &mut Option<(Pid, Action)>,
    note: Note,
) -> Result<(), NoMemory>
    ensures desk { writer.new.desk ≡ writer.old.desk }
    ensures notes { Appends note
        (noted_since writer.old held.old) (noted_since writer.new held.new) result }
{
    settle(writer, held)?;
    append(writer, note)
}

/// Returns the action as the copies carry it out, with the page that it found, or `None` for a look.
/// A record that inserted becomes a put's, so no copy has to find out what a set did.
#[inline(always)]
fn note_of(action: Action, done: Performed) -> Option<(Pid, Action)>
    ensures { result ≡ held_note done.page done.receipt action }
{
    match (done.receipt, action) {
        (Receipt::Looked { .. }, _) => None,
        (Receipt::Inserted { value, .. }, Action::Record { key, .. }) => {
            let wished = Wished::Put(value);
            Some((done.page, Action::Record { key, wished }))
        }
        _ => Some((done.page, action)),
    }
}

/// Returns the booked table of a tree with `readers` readers. Want of memory is reported only where
/// no other fault applies.
fn new_booked<I: MadeBy, D: Ledger>(
    machine: Global,
    config: Config,
    blanks: Blanks,
    readers: u32,
) -> Result<(Booked<Global, I, D>, Vec<Share<I, D>>), SnapFault>
    requires ledgers { OpensFor I.Ledger I.config D.Ledger config blanks }
    ensures table { IfOk result (λ made. made.0 ≡ new_table config) }
    ensures count { IfOk result (λ made. length made.1.items ≡ blanks.workers) }
    ensures shares { IfOk result (λ made. All (λ share. share ≡ no_changes) made.1.items) }
    ensures fine { OnOk result (MayBeRead config blanks.workers readers) }
    ensures fault { IfErr result (IsSnapFault config blanks.workers readers) }
{
    match Booked::new(machine, machine, config, blanks) {
        Err(NewFault::BadConfig(bad)) => Err(SnapFault::BadConfig(bad)),
        Err(NewFault::BadWorkers) => Err(SnapFault::BadWorkers),
        _ if has_too_few_or_many(readers) => Err(SnapFault::BadReaders),
        Err(NewFault::NoMemory) => Err(SnapFault::NoMemory),
        Ok(made) => Ok(made),
    }
}

fn has_too_few_or_many(readers: u32) -> bool
    ensures { result ≡ is_bad_reader_number readers }
{
    !(1..=MAX_READERS).contains(&readers)
}
