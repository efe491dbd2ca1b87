//! The reading and the writing end of the published pair, and their steps.

ghost use Rattle.std.specs.Prelude.{◌≡◌, ◌<◌, ◌^◌, [], false, IfOk, IfErr, IfSome, OnOk, OnErr};
ghost use Rattle.left_right.specs.Sides.{view};
ghost use Rattle.bw_law.specs.Tables.{new_table};
ghost use Rattle.bw_snap.specs.Snapshots.{BeginsWith};
ghost use Rattle.bw_snap.specs.Ends.{unpublished, Appends, MayPublish, Publishes, IsUnpublished};
ghost use Rattle.bw_snap.specs.Answers.{IsAnswerIn};

use crate::front::{Front, Naming};
use crate::note::Note;
use crate::proposed::List;
use crate::question::{Number, Question};
use crate::shown::{Backed, Sees, Shown, Takes, Tells};
use bw_delta::NoMemory;
use bw_keys::Config;
use bw_table::Table;
use core::mem::replace_with;
use left_right::reader::{Factory, Reader};
use left_right::writer::Writer;
use std::alloc::{AllocError, Global};
use std::marker::PhantomData;
use std::sync::Wait;

/// The source of reading ends.
pub type Source<N> = Factory<Shown, List, Backed<N>>;

pub type ReadingEnd<N> = Reader<Shown, List, Backed<N>>;

pub type WritingEnd<N> = Writer<Shown, Note, List, Backed<N>>;

/// Returns the writing end of two tables without pairs, with nothing pending.
pub fn begin<N: Naming>(
    machine: Global,
    config: Config,
    front: &Front,
    readers: usize,
) -> Result<WritingEnd<N>, NoMemory>
    requires some { 0 < readers }
    requires few { readers < 2 ^ 32 }
    requires front { front.now ≡ record { list = []; announcements = N.announcements } }
    requires config { N.config ≡ config }
    ensures table { IfOk result (λ w. w.desk.shown.value.table ≡ new_table config) }
    ensures front { IfOk result (λ w. w.desk.shown.value.front ≡ front.now) }
    ensures pending { IfOk result (λ w. unpublished w ≡ []) }
    ensures seen { IfOk result (λ w. view w.desk.place ≡ []) }
{
    let first = empty(machine, config, front)?;
    let second = empty(machine, config, front)?;
    match WritingEnd::new(machine, first, second, readers) {
        Ok(writer) => Ok(writer),
        Err(AllocError) => Err(NoMemory),
    }
}

/// Returns a table without pairs, with this front.
fn empty(machine: Global, config: Config, front: &Front) -> Result<Shown, NoMemory>
    ensures table { IfOk result (λ shown. shown.table ≡ new_table config) }
    ensures front { IfOk result (λ shown. shown.front ≡ front.now) }
{
    let Ok(table) = Table::new(machine, machine, config) else {
        return Err(NoMemory);
    };
    Ok(Shown::new(machine, table, front.again()))
}

/// An answer, and the front of the table that has it.
#[derive(Drop)]
pub struct Answered<A> {
    pub answer: A,
    pub front: Front,
}

/// Returns what the published table answers, or the question where the table gave no entry or the
/// reader is late. The type of the answer comes beside the question, since `replace_with` wants it
/// named by an argument, and whether the reader is late, since a test here costs a read the least.
#[inline(always)]
pub fn ask<N: Naming, Q: Question>(
    reader: ReadingEnd<N>,
    asked: (Q, bool, PhantomData<Q::Answer>),
) -> (ReadingEnd<N>, Result<Answered<Q::Answer>, Q>)
    ensures answer { IfOk result.1
        (λ answered. IsAnswerIn N.config (Q.answers asked.0) answered.front.list answered.answer) }
    ensures announced { IfOk result.1 (λ answered. answered.front.announcements ≡ N.announcements) }
    ensures seen { BeginsWith (view result.0.place) (view reader.place) }
    ensures list { IfOk result.1 (λ answered. answered.front.list ≡ view result.0.place) }
    ensures timely { OnOk result.1 (asked.1 ≡ false) }
    ensures closed { OnErr result.1 (view result.0.place ≡ view reader.place) }
    ensures back { IfErr result.1 (λ question. question ≡ asked.0) }
{
    let (question, is_late, _answer) = asked;
    if is_late {
        return (reader, Err(question));
    }
    match reader.enter_as::<Sees<N>>() {
        Ok(reading) => {
            let shown = reading.get();
            let answer = question.ask(&shown.table);
            let front = shown.front.again();
            (reading.leave(), Ok(Answered { answer, front }))
        }
        Err(reader) => (reader, Err(question)),
    }
}

/// Puts a note after what is pending.
pub fn append<N: Naming>(writer: &mut WritingEnd<N>, note: Note) -> Result<(), NoMemory>
    ensures desk { writer.new.desk ≡ writer.old.desk }
    ensures pending { Appends note (unpublished writer.old) (unpublished writer.new) result }
{
    match writer.append(note) {
        Ok(()) => Ok(()),
        Err(_note) => Err(NoMemory),
    }
}

/// Publishes what is pending.
fn publish<N: Naming, R: Wait>(
    writer: WritingEnd<N>,
    rt: &R,
) -> (WritingEnd<N>, Result<(), AllocError>)
    requires { MayPublish N.config N.announcements writer }
    ensures ok { OnOk result.1 (Publishes writer result.0) }
    ensures err { OnErr result.1 (IsUnpublished writer result.0) }
{
    writer.publish_as::<Sees<N>, R>(rt)
}

/// Publishes what is pending, in place.
pub fn advance<N: Naming, R: Wait>(writer: &mut WritingEnd<N>, rt: &R) -> Result<(), AllocError>
    requires { MayPublish N.config N.announcements writer.old }
    ensures ok { OnOk result (Publishes writer.old writer.new) }
    ensures err { OnErr result (IsUnpublished writer.old writer.new) }
{
    replace_with(writer, rt, publish)
}

/// Returns a reader that has seen nothing. It takes one of the places for readers.
pub fn newcomer<N: Naming>(source: &Source<N>) -> Result<ReadingEnd<N>, NoMemory>
    ensures { IfOk result (λ reader. view reader.place ≡ []) }
{
    match source.reader() {
        Ok(reader) => Ok(reader),
        Err(AllocError) => Err(NoMemory),
    }
}

/// Has the reader enter, and returns whether it comes late for the list, which was published: so the
/// published table's list goes on from it. No clause says so, hence the comparison. True where the
/// table gave no entry.
pub fn comes_late<N: Naming>(reader: ReadingEnd<N>, front: &Front) -> (ReadingEnd<N>, bool)
    requires { front.now.announcements ≡ N.announcements }
    ensures { result.1 ≡ false → BeginsWith (view result.0.place) front.now.list }
{
    let (reader, answered) = ask(reader, (Number, false, PhantomData));
    if let Ok(answered) = answered {
        if answered.front.goes_on(front) {
            return (reader, false);
        }
    }
    (reader, true)
}

/// Returns a new reader that has learnt all that the writing end has seen, if there is a place for
/// one.
pub fn caught_up<N: Naming>(writer: &mut WritingEnd<N>) -> Option<ReadingEnd<N>>
    ensures desk { writer.new.desk.shown ≡ writer.old.desk.shown }
    ensures log { (writer.new.log ≡ writer.old.log) × (writer.new.behind ≡ writer.old.behind) }
    ensures seen { view writer.new.desk.place ≡ view writer.old.desk.place }
    ensures caught_up { IfSome result (λ reader. view reader.place ≡ view writer.old.desk.place) }
{
    let Ok(mut reader) = writer.factory().reader() else {
        return None;
    };
    reader.learn::<Takes>(writer.tell::<Tells>());
    Some(reader)
}
