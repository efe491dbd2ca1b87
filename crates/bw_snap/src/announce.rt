//! The step that announces a list, before it is published.

ghost use Rattle.std.specs.Prelude.{◌≡◌};
ghost use Rattle.bw_snap.specs.Snapshots.{BeginsWith};
ghost use Rattle.bw_snap.specs.Ends.{next_list, next_front, Becomes};

use crate::ends::WritingEnd;
use crate::front::{Add, Front, Head, Naming, Nothing, Rising};
use crate::proposed::List;
use logbook::{Offer, Plain};
use std::sync::Wait;

/// The step asks for the published list with what is pending after it.
impl<N: Naming> Plain<WritingEnd<N>, List, u64> for Add {
    ghost use Rattle.std.specs.Prelude.{None};
    ghost use Rattle.bw_snap.specs.Ends.{next_list};

    ghost ask = { λ w. next_list w };

    ghost state = { λ w. None };
}

impl Front {
    /// Announces the published list with what is pending. The word is written under the tree's lock
    /// alone, so the first try succeeds. No clause says so: hence a loop, and not a fault that never
    /// comes. After 2^64 - 1 lists it wouldn't end.
    pub(crate) fn announce<N: Naming, R: Wait>(
        &mut self,
        head: &Head<N>,
        writer: &WritingEnd<N>,
        rt: &R,
    )
        requires announcements { self.old.announcements ≡ N.announcements }
        requires list { BeginsWith (next_list writer.now) self.old.list }
        ensures { self.new ≡ next_front N.announcements writer.now }
    {
        for _ in rt.forever() {
            if self.try_announce(head, writer) {
                return;
            }
        }
        unreachable!()
    }

    /// Announces it, unless a list was announced that this front hasn't seen. Returns whether it did.
    fn try_announce<N: Naming>(&mut self, head: &Head<N>, writer: &WritingEnd<N>) -> bool
        requires announcements { self.old.announcements ≡ N.announcements }
        requires list { BeginsWith (next_list writer.now) self.old.list }
        ensures { Becomes result self.old self.new (next_front N.announcements writer.now) }
    {
        let count = self.count;
        if count == u64::MAX {
            return false;
        }
        let mut seen = self.seen.again();
        let mut offer: Offer<List, u64, Rising, Nothing> = seen.plain::<
            Nothing,
            WritingEnd<N>,
            Add,
        >(writer);
        let mut pen = seen.no_pen();
        let found = head
            .word
            .compare_exchange::<Add, Nothing>(count, count + 1, &mut seen, &mut offer, &mut pen);
        if found != count {
            return false;
        }
        self.count = count + 1;
        self.seen = seen;
        true
    }
}
