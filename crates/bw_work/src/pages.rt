//! The map's pairs from a key on, leaf by leaf.

ghost use Rattle.std.specs.Prelude.{◌≡◌, Some};
ghost use Rattle.std.specs.Iterator.{at_most};
ghost use Rattle.bw_procedures.specs.Calls.{OnlySpends};
ghost use Rattle.bw_work.specs.Walks.{IsNextPage, keys_left};

use bw_keys::Key;
use bw_procedures::{Calls, Fault, Slice};
use std::alloc::{Allocator, Global};
use std::marker::PhantomData;

/// The pairs of one leaf after the other, from a key on, as [`Calls::page_from`] reads them: each
/// page begins where the one before it ended. Steps of others may come between two pages, so what
/// all of them have together need never have been the map. A fault ends the walk: where the last
/// page ended another one can begin.
///
/// Adds no receipts.
#[derive(Drop)]
pub struct Pages<'h, A: Allocator + Copy, W: Calls<A>> {
    hand: &'h mut W,
    machine: Global,
    next: Option<Key>,
    chains: PhantomData<A>,
}

impl<'h, A: Allocator + Copy, W: Calls<A>> Pages<'h, A, W> {
    /// Returns the pages from the key on. Their pairs will lie in the machine's memory.
    pub fn of(hand: &'h mut W, machine: Global, key: Key) -> Pages<'h, A, W>
        ensures hand { result.hand.ghost_name ≡ hand.entry.ghost_name }
        ensures next { result.next ≡ Some key }
    {
        Pages {
            hand,
            machine,
            next: Some(key),
            chains: PhantomData,
        }
    }
}

impl<'h, A: Allocator + Copy, W: Calls<A>> Iterator for Pages<'h, A, W> {
    type Item = Result<Slice, Fault>;

    // each page begins where the one before it ended, and adds no receipt
    ghost next_gives = { λ old page new. (new.hand.ghost_name ≡ old.hand.ghost_name)
        × IsNextPage (W.shows new.hand.now) old.next page new.next
        × OnlySpends (W.seen old.hand.now) (W.seen new.hand.now) };

    ghost remaining = { λ pages. at_most (keys_left pages.next) };

    fn next(&mut self) -> Option<Result<Slice, Fault>> {
        let key = self.next.take()?;
        match self.hand.page_from(self.machine, key) {
            Ok(slice) => {
                self.next = slice.next;
                Some(Ok(slice))
            }
            Err(fault) => Some(Err(fault)),
        }
    }
}
