//! One of the two published copies of a table.

ghost use Rattle.std.specs.Prelude.{◌≡◌, true, false};
ghost use Rattle.bw_step.specs.ProposalView.{proposal_of};
ghost use Rattle.bw_law.specs.Runs.{next_table};
ghost use Rattle.bw_snap.specs.Notes.{table_with};

use crate::front::{Front, Naming};
use crate::note::{Note, record_of};
use crate::proposed::List;
use atomic_table::{Join, Split};
use bw_delta::Spare;
use bw_keys::Pid;
use bw_step::{Action, Step};
use bw_table::Table;
use crossbeam_utils::rule::{Outcome, Protocol};
use left_right::Absorb;
use std::alloc::{AllocError, Global};
use std::marker::PhantomData;

/// A published table, with the list of steps that leads to it.
#[derive(Drop)]
pub struct Shown {
    pub table: Table<Global>,
    pub front: Front,
    pub machine: Global,
}

impl Shown {
    pub fn new(machine: Global, table: Table<Global>, front: Front) -> Shown
        ensures table { result.table ≡ table }
        ensures front { result.front ≡ front }
    {
        Shown {
            table,
            front,
            machine,
        }
    }
}

impl Absorb<Note> for Shown {
    ghost use Rattle.bw_snap.specs.Notes.{noted};

    type State = (Table<Global>, Front);

    ghost state = { λ shown. (shown.table, shown.front) };

    ghost applied = { noted };

    fn absorb_first(&mut self, note: &Note, _other: &Shown) -> Result<(), AllocError> {
        match note {
            Note::Step(step) => {
                let Ok(twin) = step.twin(self.machine) else {
                    return Err(AllocError);
                };
                take(&mut self.table, twin);
            }
            Note::Action(page, action) => {
                if !carry_out(self.machine, &mut self.table, *page, *action) {
                    return Err(AllocError);
                }
            }
            Note::Mark(front) => self.front = front.again(),
        }
        Ok(())
    }

    /// Takes the note itself, so a step needs no memory here. An action for which memory is short comes
    /// back.
    fn absorb_second(&mut self, note: Note, _other: &Shown) -> Result<(), Note> {
        match note {
            Note::Step(step) => take(&mut self.table, step),
            Note::Action(page, action) => {
                if !carry_out(self.machine, &mut self.table, page, action) {
                    return Err(Note::Action(page, action));
                }
            }
            Note::Mark(front) => self.front = front,
        }
        Ok(())
    }
}

/// Takes the step if the table accepts it.
fn take(table: &mut Table<Global>, step: Step<Global>)
    ensures { table.new ≡ next_table table.old (proposal_of step) }
{
    let _ = table.install(step);
}

/// Does what the locked table did. Returns whether it was done: a copy that is where the locked table
/// was is short of nothing but memory.
fn carry_out(machine: Global, table: &mut Table<Global>, page: Pid, action: Action) -> bool
    ensures done { result ≡ true → table.new ≡ table_with table.old page action }
    ensures unchanged { result ≡ false → table.new ≡ table.old }
{
    match action {
        Action::Change { key, wished } => table.change_leaf(page, key, wished).is_some(),
        Action::Record { .. } | Action::AddTerm { .. } => put(machine, table, page, action),
        Action::Reshape { .. } | Action::Cut { .. } => {
            let spare = action.spare(machine);
            table.perform(machine, action, spare).is_ok()
        }
        Action::Post { child } => table.post_at_once(page, child).is_ok(),
    }
}

/// Puts the action's record on its page. Returns whether there was memory for it.
fn put(machine: Global, table: &mut Table<Global>, page: Pid, action: Action) -> bool
    ensures done { result ≡ true → table.new ≡ table_with table.old page action }
    ensures unchanged { result ≡ false → table.new ≡ table.old }
{
    let Ok(spare) = Spare::new(machine) else {
        return false;
    };
    let Some(step) = record_of(table, page, action, spare) else {
        return false;
    };
    table.install(step).is_ok()
}

/// The rule of what is published, over what readers, stamps and the writing end have seen. Each of
/// them has a view, which is a list, and the published list begins with each view.
pub struct Backed<N> {
    of: PhantomData<N>,
}

impl<N: Naming> Protocol<Shown, List> for Backed<N> {
    ghost use Rattle.std.specs.Prelude.{[]};
    ghost use Rattle.bw_snap.specs.Views.{Backs};

    ghost holds = { λ s views. Backs N.config N.announcements s.table s.front views };

    ghost first = { [] };
}

/// Entering or publishing shows a table whose list begins with the view, and that list is the view
/// from then on.
pub struct Sees<N> {
    of: PhantomData<N>,
}

impl<N: Naming> Outcome<Shown, List> for Sees<N> {
    ghost use Rattle.bw_snap.specs.Views.{SeesOn};

    ghost then = { λ v x y w. SeesOn N.config N.announcements v y.table y.front w };
}

/// The writing end passes on all that it has seen, and keeps it.
pub struct Tells;

impl Split<List> for Tells {
    ghost left = { λ v. v };

    ghost right = { λ v. v };
}

/// A reader that has seen nothing learns what is passed on.
pub struct Takes;

impl Join<List> for Takes {
    ghost use Rattle.std.specs.Prelude.{[]};

    ghost both = { λ v w. w };

    ghost spent = { [] };
}
