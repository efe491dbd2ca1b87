//! Consolidation in one pass over the records and the base pages.

ghost use Rattle.std.specs.Prelude.{◌≡◌, ◌≤◌, length, IfOk};
ghost use Rattle.bw_delta.specs.Fence.{fences, is_leaf};
ghost use Rattle.bw_delta.specs.PageView.{listed};
ghost use Rattle.bw_delta.specs.Records.{depth};
ghost use Rattle.bw_delta.specs.Sound.{IsSound, IsWellBuilt, listed_for, page_for};
ghost use Rattle.bw_chain.specs.Changes.{entries_by};

use crate::entries::value::EntryValue;
use crate::page::shape::{Extent, extent_of};
use crate::pass::edits::{Edits, MOST_EDITS};
use crate::pass::lists::Lists;
use crate::pass::pass;
use bw_delta::{Base, Chain, Entries, EntryList, Fences, NoMemory};
use bw_keys::{Fence, FenceWord, Key, Pid};
use std::alloc::Allocator;

/// Returns the base page with all of the chain's effects: its entries, its range and its side link
/// (Levandoski et al., ICDE 2013, "page consolidation"). Fails only if memory is short.
#[tactic(auto, using(bw_delta::proofs::Stands::page_for_is_page))]
pub fn consolidate<A: Allocator + Copy>(alloc: A, chain: &Chain<A>) -> Result<Base<A>, NoMemory>
    requires sound { IsSound chain.now }
    ensures { IfOk result (λ base. base ≡ page_for chain.now) }
{
    let Extent {
        fences: Fences { low, high, right },
        is_leaf,
        room,
    } = extent_of(chain);
    let entries = entries_of(alloc, chain, high, is_leaf, room)?;
    Ok(Base {
        low,
        high: FenceWord::new(high),
        right,
        entries,
    })
}

/// Lists the chain's entries: pairs or routes.
#[tactic(auto, using(crate::proofs::Bridges::both_kinds))]
fn entries_of<A: Allocator + Copy>(
    alloc: A,
    chain: &Chain<A>,
    high: Fence,
    of_pairs: bool,
    room: usize,
) -> Result<Entries<A>, NoMemory>
    requires sound { IsSound chain.now }
    requires high { high ≡ (fences chain.now).high }
    requires kind { of_pairs ≡ is_leaf chain.now }
    ensures { IfOk result (λ entries. listed entries ≡ listed_for (is_leaf chain.now) chain.now) }
{
    if of_pairs {
        let mut edits: Edits<'_, u64, A> = Edits::from_buf(&alloc, [(0, None); MOST_EDITS]);
        Ok(Entries::Pairs(list(alloc, chain, high, room, edits.as_mut_slice())?))
    } else {
        let mut edits: Edits<'_, Pid, A> = Edits::from_buf(&alloc, [(0, None); MOST_EDITS]);
        Ok(Entries::Routes(list(alloc, chain, high, room, edits.as_mut_slice())?))
    }
}

/// Lists the chain's entries of one kind. There is room for as many edits as the chain is deep.
fn list<A: Allocator + Copy, X: EntryValue>(
    alloc: A,
    chain: &Chain<A>,
    high: Fence,
    room: usize,
    edits: &mut [(Key, Option<X>)],
) -> Result<EntryList<X, A>, NoMemory>
    requires built { IsWellBuilt chain.now }
    requires high { high ≡ (fences chain.now).high }
    requires deep { depth chain.now ≤ length edits.old }
    ensures { IfOk result
        (λ entries. entries ≡ entries_by X.own_entries X.own_change chain.now) }
{
    let keys = Vec::with_capacity(alloc, room)?;
    let values = Vec::with_capacity(alloc, room)?;
    let mut lists = Lists { keys, values };
    pass(chain, high, edits, 0, &mut lists)?;
    Ok(EntryList::of_lists(lists.keys, lists.values))
}
