//! The way of a search from the root: to the right where its key is past a page, and down by the
//! routes otherwise. A visit changes nothing, takes no memory, and reports what it meets unfinished.

ghost use Rattle.std.specs.Prelude.{◌≡◌, ◌<◌, true, Some};
ghost use Rattle.bw_delta.specs.Entries.{last_below, last_upto};
ghost use Rattle.bw_step.specs.Stages.{is_in_row};
ghost use Rattle.bw_law.specs.Laws.{IsLeafOf};
ghost use Rattle.bw_law.specs.Slots.{is_merged};
ghost use Rattle.bw_law.specs.Tables.{slot_at};
ghost use Rattle.bw_table.specs.SlotFacts.{HasSoundChain};
ghost use Rattle.bw_table.specs.Visits.{visit_at, next_by, way_on, down_by, live_routes, TellsWhetherOnTheWay, StaysOnTheWay, ComesNearer, FindsPage, EachWalkEndsAt, OneWalkEndsAt};

use crate::slot::Slot;
use crate::table::Table;
use bw_keys::{Fence, Key, Pid};
use bw_step::{Go, Next, Place, Stage, Todo};
use std::alloc::Allocator;

/// What a visit answers where the page isn't there any more.
const GONE: Next = Next {
    go: Go::Gone,
    todo: None,
};

impl<A: Allocator + Copy> Table<A> {
    /// Returns where a search for the key, down to the goal's level, goes from a place, and what it
    /// meets unfinished there. Any place may be visited: one from `root`, or from a visit of the table
    /// as it was earlier. Where its page isn't there any more the search begins again at the root.
    #[inline(always)]
    pub fn visit(&self, place: Place, key: Key, goal: u8) -> Next
        ensures answer { result ≡ visit_at self.now place key goal }

        // A place is gone just where it isn't on the way, and the next place always is.
        ensures gone { TellsWhetherOnTheWay self.now place key goal result.go }
        ensures stays { StaysOnTheWay self.now key goal result.go }

        // Each place is nearer to the page looked for than the one before, up to that page.
        ensures nearer { ComesNearer place result.go }
        ensures found { FindsPage self.now place key goal result.go }
    {
        match self.slot(place.pid) {
            Some(slot) if slot.is_there(place, key, goal) => self.next(place.pid, slot, key, goal),
            _ => GONE,
        }
    }

    /// The way on from a page that is there: right, down or nowhere.
    #[inline(always)]
    fn next(&self, pid: Pid, slot: &Slot<A>, key: Key, goal: u8) -> Next
        requires in_row { is_in_row slot.now.stage ≡ true }
        requires sound { HasSoundChain slot.now }
        ensures { let go = way_on self.now.slots pid slot.now key goal in
            result ≡ next_by self.now.slots pid slot.now key go }
    {
        match slot.high() {
            Fence::Key(high) if high <= key => match slot.right() {
                Some(right) => Next {
                    go: Go::Right(Place {
                        pid: right,
                        level: slot.level,
                        from: high,
                    }),
                    todo: slot.todo(pid),
                },
                None => GONE,
            },
            _ if goal < slot.level => self.next_down(pid, slot, key),
            _ => Next {
                go: Go::Here(slot.view(pid)),
                todo: slot.todo(pid),
            },
        }
    }

    /// The way down from an inner page.
    #[inline(always)]
    fn next_down(&self, pid: Pid, slot: &Slot<A>, key: Key) -> Next
        requires in_row { is_in_row slot.now.stage ≡ true }
        requires sound { HasSoundChain slot.now }
        requires inner { 0 < slot.now.level }
        ensures { let go = down_by slot.now (last_upto key (live_routes self.now.slots slot.now)) in
            result ≡ next_by self.now.slots pid slot.now key go }
    {
        let Some((separator, child)) = slot.child(key) else {
            return GONE;
        };
        if !self.is_merged(child) {
            return Next {
                go: down(slot, separator, child),
                todo: slot.todo(pid),
            };
        }
        match self.live_route_before(slot, separator) {
            Some((from, live)) => Next {
                go: down(slot, from, live),
                todo: slot.todo(pid).or(Some(Todo::DropTerm(child))),
            },
            None => GONE,
        }
    }

    /// The greatest route below the key that leads to a page which isn't merged. Each route that it
    /// passes is still to be taken out.
    fn live_route_before(&self, slot: &Slot<A>, key: Key) -> Option<(Key, Pid)>
        requires in_row { is_in_row slot.now.stage ≡ true }
        requires sound { HasSoundChain slot.now }
        ensures { result ≡ last_below key (live_routes self.now.slots slot.now) }
    {
        let mut bound = key;
        'routes: while let Some((separator, child)) = slot.route_before(bound) {
            if !self.is_merged(child) {
                return Some((separator, child));
            }
            bound = separator;
        }
        None
    }

    /// Whether the page is merged.
    #[inline(always)]
    fn is_merged(&self, pid: Pid) -> bool
        ensures { result ≡ is_merged (slot_at self.now pid.0).stage }
    {
        match self.slot(pid) {
            Some(slot) => slot.stage == Stage::Merged,
            None => false,
        }
    }

    /// Returns the leaf whose range holds the key: where the walk from the root ends.
    pub fn locate(&self, key: Key) -> Pid
        ensures leaf { IsLeafOf self.now key result.0 }
        ensures walk { EachWalkEndsAt self.now key result.0 }
        ensures one_walk { OneWalkEndsAt self.now key result.0 }
    {
        self.law();
        let mut place = self.root();
        'walk: loop {
            match self.visit(place, key, 0).go {
                Go::Right(next) | Go::Down(next) => place = next,
                Go::Here(view) => return view.pid,
                Go::Gone => unreachable!(),
            }
        }
    }
}

/// Down from a page by one of its routes.
#[inline(always)]
fn down<A: Allocator + Copy>(slot: &Slot<A>, separator: Key, child: Pid) -> Go
    requires { 0 < slot.now.level }
    ensures { result ≡ down_by slot.now (Some (separator, child)) }
{
    Go::Down(Place {
        pid: child,
        level: slot.level - 1,
        from: separator,
    })
}
