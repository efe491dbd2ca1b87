//! Comparison in one pass over the records and the base pages.

ghost use Rattle.std.specs.Prelude.{◌≡◌, ◌↔◌, ◌≤◌, IsTrue, length};
ghost use Rattle.bw_keys.specs.Ranges.{end_of};
ghost use Rattle.bw_delta.specs.Entries.{from};
ghost use Rattle.bw_delta.specs.Fence.{fences, is_leaf};
ghost use Rattle.bw_delta.specs.Pages.{listed_from, upper_part};
ghost use Rattle.bw_delta.specs.Records.{depth};
ghost use Rattle.bw_delta.specs.Slices.{list_of};
ghost use Rattle.bw_delta.specs.Sound.{IsSound, IsWellBuilt, listed_for, page_for};
ghost use Rattle.bw_chain.specs.Changes.{entries_by};

use crate::entries::value::EntryValue;
use crate::page::shape::{Extent, extent_of};
use crate::pass::edits::{Edits, MOST_EDITS};
use crate::pass::pass;
use crate::pass::stripping::{Compared, Differs};
use bw_delta::{Base, Chain, Entries, EntrySlice, Fences};
use bw_keys::{Fence, Key, Pid};
use std::alloc::Allocator;

/// Reports whether the base page is the one that the chain stands for: it has the chain's range,
/// side link and entries. It takes no memory, so a consolidated page can be checked while the
/// mapping table is held.
#[tactic(auto, using(crate::proofs::Passing::Listing::listed_from_zero))]
pub fn same<A: Allocator + Copy>(base: &Base<A>, chain: &Chain<A>) -> bool
    requires sound { IsSound chain.now }
    ensures { IsTrue result ↔ (base.now ≡ page_for chain.now) }
{
    let extent = extent_of(chain);
    let Fences { low, high, right } = extent.fences;
    base.low == low
        && base.high.fence() == high
        && base.right == right
        && lists_from(base, chain, Fence::Key(0), extent)
}

/// Reports whether the base page is the part, from the separator on, of the page that the chain
/// stands for. It takes no memory.
pub fn is_upper_part<A: Allocator + Copy>(base: &Base<A>, chain: &Chain<A>, separator: Key) -> bool
    requires sound { IsSound chain.now }
    ensures { IsTrue result ↔ (base.now ≡ upper_part separator (page_for chain.now)) }
{
    let extent = extent_of(chain);
    let Fences { high, right, .. } = extent.fences;
    base.low == separator
        && base.high.fence() == high
        && base.right == right
        && lists_from(base, chain, Fence::Key(separator), extent)
}

/// Reports whether the base page lists what the chain does from the fence on.
#[tactic(auto, using(crate::proofs::Bridges::both_kinds))]
fn lists_from<A: Allocator + Copy>(
    base: &Base<A>,
    chain: &Chain<A>,
    fence: Fence,
    extent: Extent,
) -> bool
    requires sound { IsSound chain.now }
    requires fences { extent.fences ≡ fences chain.now }
    requires kind { extent.is_leaf ≡ is_leaf chain.now }
    ensures { IsTrue result ↔
        (base.now.listed ≡ listed_from (end_of fence) (listed_for (is_leaf chain.now) chain.now)) }
{
    let high = extent.fences.high;
    match &base.entries {
        Entries::Pairs(pairs) => {
            if !extent.is_leaf {
                return false;
            }
            let mut edits: Edits<'_, u64, A> = Edits::from_buf(
                pairs.allocator(),
                [(0, None); MOST_EDITS],
            );
            are_entries(pairs.as_slice(), chain, fence, high, edits.as_mut_slice())
        }
        Entries::Routes(routes) => {
            if extent.is_leaf {
                return false;
            }
            let mut edits: Edits<'_, Pid, A> = Edits::from_buf(
                routes.allocator(),
                [(0, None); MOST_EDITS],
            );
            are_entries(routes.as_slice(), chain, fence, high, edits.as_mut_slice())
        }
    }
}

/// Reports whether the list has the chain's entries from the fence on, and no others. There is room
/// for as many edits as the chain is deep.
fn are_entries<A: Allocator + Copy, X: EntryValue>(
    list: EntrySlice<'_, X>,
    chain: &Chain<A>,
    fence: Fence,
    high: Fence,
    edits: &mut [(Key, Option<X>)],
) -> bool
    requires built { IsWellBuilt chain.now }
    requires high { high ≡ (fences chain.now).high }
    requires deep { depth chain.now ≤ length edits.old }
    ensures { IsTrue result ↔ (list_of list.entry
        ≡ from (end_of fence) (entries_by X.own_entries X.own_change chain.now)) }
{
    let mut compared = Compared {
        rest: list,
        from: fence,
    };
    match pass(chain, high, edits, 0, &mut compared) {
        Ok(()) => compared.rest.is_empty(),
        Err(Differs) => false,
    }
}
