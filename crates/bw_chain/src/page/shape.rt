ghost use Rattle.std.specs.Prelude.{◌≡◌, true};
ghost use Rattle.bw_delta.specs.Fence.{fences, is_leaf};
ghost use Rattle.bw_delta.specs.Pages.{lists_pairs};
ghost use Rattle.bw_delta.specs.Records.{depth};
ghost use Rattle.bw_chain.specs.Pages.Ends.{ends_range};

use bw_delta::{Base, Chain, Delta, Entries, Fences, Node};
use bw_keys::{Fence, Pid};
use std::alloc::Allocator;

/// What one walk down a chain finds out about its page.
#[derive(Clone, Copy)]
pub(crate) struct Extent {
    pub(crate) fences: Fences,
    pub(crate) is_leaf: bool,
    /// At least the number of the chain's entries: that of its base pages, and one for each record
    /// that puts one.
    pub(crate) room: usize,
}

/// Returns the fence keys, the kind and the room of the page that the chain stands for.
pub(crate) fn extent_of<A: Allocator + Copy>(chain: &Chain<A>) -> Extent
    ensures fences { result.fences ≡ fences chain.now }
    ensures kind { result.is_leaf ≡ is_leaf chain.now }
{
    let mut room = 0;
    let end = newest_end(chain, &mut room);
    let base = first_base(end, &mut room);
    let (high, right) = range_end(end);
    Extent {
        fences: Fences {
            low: base.low,
            high,
            right,
        },
        is_leaf: base.is_leaf(),
        room,
    }
}

/// Returns the fence keys and the side link of the page that the chain stands for. A split ends the
/// range before its separator, and a merge ends it where the right page ended.
pub fn fences<A: Allocator + Copy>(chain: &Chain<A>) -> Fences
    ensures { result ≡ fences chain.now }
{
    extent_of(chain).fences
}

/// Returns where the range ends, and the side link there, as the newest node of the chain says.
fn range_end<A: Allocator + Copy>(end: &Chain<A>) -> (Fence, Option<Pid>)
    requires ends { ends_range end.now ≡ true }
    ensures high { result.0 ≡ (fences end.now).high }
    ensures right { result.1 ≡ (fences end.now).right }
{
    match &end.node {
        Node::Bare(base) => (base.high.fence(), base.right),
        Node::Above(delta, _) => match *delta {
            Delta::Split(separator, right) => (Fence::Key(separator), Some(right)),
            _ => unreachable!(),
        },
        Node::Merged(merging, _, _) => (merging.high, merging.right),
    }
}

/// Returns the part of the chain from the newest record that ends the range, and adds to the room
/// what the records above it put. This walk and the next are built as loops, as each calls itself
/// last and returns a reference.
fn newest_end<'a, A: Allocator + Copy>(chain: &'a Chain<A>, room: &mut usize) -> &'a Chain<A>
    ensures low { (fences result.now).low ≡ (fences chain.now).low }
    ensures high { (fences result.now).high ≡ (fences chain.now).high }
    ensures right { (fences result.now).right ≡ (fences chain.now).right }
    ensures kind { is_leaf result.now ≡ is_leaf chain.now }
    ensures ends { ends_range result.now ≡ true }
{
    match &chain.node {
        Node::Bare(_) | Node::Merged(_, _, _) => chain,
        Node::Above(delta, below) => match *delta {
            Delta::Split(_, _) => chain,
            Delta::Insert(_, _) | Delta::Modify(_, _) | Delta::TermAdd(_, _) => {
                *room = room.saturating_add(1);
                newest_end(below, room)
            }
            Delta::Delete(_) | Delta::Remove | Delta::TermDelete(_) => newest_end(below, room),
        },
    }
}

/// Returns the base page at the low end of the chain's range, and adds the chain's entries to the
/// room.
fn first_base<'a, A: Allocator + Copy>(chain: &'a Chain<A>, room: &mut usize) -> &'a Base<A>
    ensures low { result.now.low ≡ (fences chain.now).low }
    ensures kind { lists_pairs result.now.listed ≡ is_leaf chain.now }
{
    match &chain.node {
        Node::Bare(base) => {
            *room = room.saturating_add(base.len());
            base
        }
        Node::Above(delta, below) => match *delta {
            Delta::Insert(_, _) | Delta::Modify(_, _) | Delta::TermAdd(_, _) => {
                *room = room.saturating_add(1);
                first_base(below, room)
            }
            Delta::Split(_, _) | Delta::Delete(_) | Delta::Remove | Delta::TermDelete(_) => {
                first_base(below, room)
            }
        },
        Node::Merged(_, left, right) => {
            first_base(right, room);
            first_base(left, room)
        }
    }
}

/// Reports whether the chain is that of a leaf, which lists pairs and no routes.
pub fn is_leaf<A: Allocator + Copy>(chain: &Chain<A>) -> bool
    ensures { result ≡ is_leaf chain.now }
{
    first_base(chain, &mut 0).is_leaf()
}

/// Returns the number of records above a base page along the deepest path, 0 to 64.
pub fn depth<A: Allocator + Copy>(chain: &Chain<A>) -> u8
    ensures { result ≡ depth chain.now }
{
    chain.depth()
}

/// Returns the allocator of the chain.
pub(crate) fn allocator<A: Allocator + Copy>(chain: &Chain<A>) -> &A {
    match &chain.node {
        Node::Bare(base) => match &base.entries {
            Entries::Pairs(pairs) => pairs.allocator(),
            Entries::Routes(routes) => routes.allocator(),
        },
        Node::Above(_, below) => Box::allocator(below),
        Node::Merged(_, left, _) => Box::allocator(left),
    }
}
