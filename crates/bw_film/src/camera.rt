//! A worker each of whose steps is filmed.

ghost use Rattle.std.specs.Prelude.{◌≡◌, false};
ghost use Rattle.std.specs.String.{string_bytes};
ghost use Rattle.bw_film.specs.Choices.{one_more};
ghost use Rattle.bw_film.specs.Filming.{IsSameChoice};
ghost use Rattle.bw_film.specs.Films.{AddsAFrame};

use crate::film::Film;
use crate::telling::Telling;
use bw_alone::Alone;
use bw_delta::{Chain, NoMemory};
use bw_keys::{Config, Key, Pid, Version};
use bw_procedures::{Ends, Keep, Steps};
use bw_step::{CopyFault, Denied, Look, Next, Place, Receipt, Step, View};
use bw_table::Table;
use std::alloc::Global;

/// A worker that shows its table.
pub(crate) trait Shows {
    fn table(&self) -> &Table<Global>;
}

impl<'t> Shows for Alone<'t, Global> {
    fn table(&self) -> &Table<Global> {
        &*self.table
    }
}

/// A worker that takes its steps one by one, none of several at once, and adds each to a film.
#[derive(Drop)]
pub(crate) struct Filmed<S: Drop> {
    pub(crate) steps: S,
    pub(crate) film: Film,
    /// Whether memory was short for a moment.
    pub(crate) has_failed: bool,
}

impl<S: Steps<Global, Step<Global>> + Shows + Drop> Filmed<S> {
    /// Adds the moment after a step.
    fn film_step(&mut self, receipt: Receipt)
        ensures steps { self.new.steps ≡ self.old.steps }
        ensures choice { IsSameChoice self.old.film self.new.film }
        ensures row { string_bytes self.new.film.row ≡ string_bytes self.old.film.row }
        ensures crew { self.new.film.crew.items ≡ self.old.film.crew.items }
        ensures frames { AddsAFrame (string_bytes self.old.film.row) self.old.film.crew.items
            self.old.film.frames.items self.new.film.frames.items }
        ensures failed { self.new.has_failed ≡ false → self.old.has_failed ≡ false }
        ensures counted { self.new.has_failed ≡ false
            → self.new.film.moments ≡ one_more self.old.film.moments }
    {
        let (alloc, table) = (self.steps.alloc(), self.steps.table());
        let added = self.film.add(alloc, table, Telling::Step(receipt));
        self.has_failed = self.has_failed || added.is_err();
    }
}

impl<S: Steps<Global, Step<Global>> + Shows + Drop> Steps<Global, Step<Global>> for Filmed<S> {
    ghost use Rattle.bw_film.specs.Filming.{IsFilmed, filmed_join, filmed_stay};

    ghost seen = { λ s. S.seen s.steps };

    ghost kept = { λ trail. S.kept trail };

    // the steps lead on, and each of them is a moment of the film
    ghost follows = { λ a b. S.follows a.steps b.steps
        × IsFilmed a.film a.has_failed (S.seen a.steps).trail
        b.film b.has_failed (S.seen b.steps).trail };

    ghost shows = { λ s low end pairs. S.shows s.steps low end pairs };

    ghost calm = { λ s fact. S.calm s.steps fact };

    ghost stays = { λ s. (
      S.stays s.steps,
      filmed_stay s.film s.has_failed (S.seen s.steps).trail,
    ) };

    ghost joins = { λ a b c first then. (
      S.joins a.steps b.steps c.steps first.0 then.0,
      filmed_join first.1 then.1,
    ) };

    ghost narrows = { λ s low key end pairs le shown.
        S.narrows s.steps low key end pairs le shown };

    fn config(&self) -> Config {
        self.steps.config()
    }

    fn alloc(&self) -> Global {
        self.steps.alloc()
    }

    fn root(&self) -> Place {
        self.steps.root()
    }

    #[tactic(auto, using(crate::proofs::Filming::filmed_same))]
    fn visit(&mut self, place: Place, key: Key, goal: u8) -> Next {
        self.steps.visit(place, key, goal)
    }

    #[tactic(auto, using(crate::proofs::Filming::filmed_same))]
    fn peek(&mut self, pid: Pid) -> Option<View> {
        self.steps.peek(pid)
    }

    fn look(&mut self, pid: Pid, key: Key, keep: Keep) -> Result<Option<Look>, NoMemory> {
        self.steps.look(pid, key, keep)
    }

    #[tactic(auto, using(crate::proofs::Filming::filmed_same))]
    fn copy_page(&mut self, pid: Pid, version: Version) -> Result<Chain<Global>, CopyFault> {
        self.steps.copy_page(pid, version)
    }

    #[tactic(auto, using(crate::proofs::Filming::filmed_same))]
    fn install(&mut self, step: Step<Global>) -> Result<Receipt, Denied> {
        let answer = self.steps.install(step);
        if let Ok(receipt) = answer {
            self.film_step(receipt);
        }
        answer
    }

    #[tactic(auto, using(crate::proofs::Filming::filmed_same))]
    fn idle(&mut self) {
        self.steps.idle();
    }

    fn effort(&self) -> u64 {
        self.steps.effort()
    }

    fn ends(&self) -> Ends {
        self.steps.ends()
    }

    fn trail(&self) -> &[Receipt] {
        self.steps.trail()
    }
}
