ghost use Rattle.std.specs.Prelude.{◌≡◌, ◌↔◌, IsTrue};
ghost use Rattle.bw_delta.specs.Slices.{list_of};
ghost use Rattle.bw_chain.specs.Ascends.{IsAscending};

use crate::entries::change::Change;
use bw_delta::{Base, Delta, Entries, EntrySlice};
use bw_keys::{Key, Pid};
use std::alloc::Allocator;

/// The part of an entry that is not its key: the value of a pair, or the page of a route. Chains
/// are read alike for both.
pub trait EntryValue: Copy {
    ghost use Rattle.std.specs.Prelude.{ℕ, List};
    ghost use Rattle.bw_delta.specs.Pages.{Listed};
    ghost use Rattle.bw_delta.specs.declared.chain.Delta.{Delta};
    ghost use Rattle.bw_chain.specs.Laws.{RiseInRange, AreCutAtHigh};
    ghost use Rattle.bw_chain.specs.declared.entries.change.Change.{Change};

    /// The entries of this kind that a page lists.
    ghost own_entries: { Listed → List (ℕ × Self) };

    /// What a record changes of them.
    ghost own_change: { Delta → Change Self };

    /// Returns the base page's entries of this kind: none, if the page is of the other kind.
    fn entries_on<A: Allocator>(base: &Base<A>) -> EntrySlice<'_, Self>
        ensures listed { list_of result ≡ own_entries base.now.listed }
        ensures ascending { IsAscending (list_of result) };

    /// Returns what the record changes of the entries below it.
    fn change_by(delta: Delta) -> Change<Self>
        ensures { result ≡ own_change delta };

    /// Returns a value that fills a place until another is written there.
    fn blank() -> Self;

    /// Reports whether the values are equal.
    fn is_same(self, other: Self) -> bool
        ensures { IsTrue result ↔ (self ≡ other) };

    // The entries of a chain rise inside its range.
    ghost rise: { RiseInRange own_entries own_change };

    // A chain's range ends where its newest record cuts the entries off.
    ghost cut: { AreCutAtHigh own_change };
}

impl EntryValue for u64 {
    ghost use Rattle.bw_delta.specs.Pairs.{pairs_listed};
    ghost use Rattle.bw_chain.specs.Changes.{pair_change};
    ghost use Rattle.bw_chain.specs.Kinds.{pairs_rise_in_range, pairs_cut_at_high};

    ghost own_entries = { pairs_listed };

    ghost own_change = { pair_change };

    ghost rise = { pairs_rise_in_range };

    ghost cut = { pairs_cut_at_high };

    fn entries_on<A: Allocator>(base: &Base<A>) -> EntrySlice<'_, u64> {
        let Entries::Pairs(pairs) = &base.entries else {
            return EntrySlice::empty();
        };
        pairs.as_slice()
    }

    fn change_by(delta: Delta) -> Change<u64> {
        match delta {
            Delta::Insert(key, value) | Delta::Modify(key, value) => Change::Put(key, value),
            Delta::Delete(key) => Change::Without(key),
            Delta::Split(separator, _) => Change::Below(separator),
            Delta::Remove | Delta::TermAdd(_, _) | Delta::TermDelete(_) => Change::Nothing,
        }
    }

    fn blank() -> u64 {
        0
    }

    fn is_same(self, other: u64) -> bool {
        self == other
    }
}

impl EntryValue for Pid {
    ghost use Rattle.bw_delta.specs.Pairs.{routes_listed};
    ghost use Rattle.bw_chain.specs.Changes.{route_change};
    ghost use Rattle.bw_chain.specs.Kinds.{routes_rise_in_range, routes_cut_at_high};

    ghost own_entries = { routes_listed };

    ghost own_change = { route_change };

    ghost rise = { routes_rise_in_range };

    ghost cut = { routes_cut_at_high };

    fn entries_on<A: Allocator>(base: &Base<A>) -> EntrySlice<'_, Pid> {
        let Entries::Routes(routes) = &base.entries else {
            return EntrySlice::empty();
        };
        routes.as_slice()
    }

    fn change_by(delta: Delta) -> Change<Pid> {
        match delta {
            Delta::TermAdd(separator, child) => Change::Put(separator, child),
            Delta::TermDelete(separator) => Change::Without(separator),
            Delta::Split(separator, _) => Change::Below(separator),
            Delta::Insert(_, _) | Delta::Modify(_, _) | Delta::Delete(_) | Delta::Remove => {
                Change::Nothing
            }
        }
    }

    fn blank() -> Pid {
        Pid(0)
    }

    fn is_same(self, other: Pid) -> bool {
        self == other
    }
}
