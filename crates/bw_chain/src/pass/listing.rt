ghost use Rattle.std.specs.Prelude.{◌≡◌, ◌++◌, OnOk};
ghost use Rattle.bw_delta.specs.Pairs.{pairs};
ghost use Rattle.bw_delta.specs.Sound.{IsSound};

use crate::page::shape::{Extent, allocator, extent_of};
use crate::pass::edits::{Edits, MOST_EDITS};
use crate::pass::pass;
use bw_delta::{Chain, Fences, NoMemory};
use bw_keys::Key;
use std::alloc::Allocator;

/// Appends the chain's pairs to the list, in the order of their keys. It asks for memory at most
/// once.
#[tactic(auto, using(crate::proofs::Bridges::both_kinds))]
pub fn append_pairs<A: Allocator + Copy, B: Allocator>(
    chain: &Chain<A>,
    list: &mut Vec<(Key, u64), B>,
) -> Result<(), NoMemory>
    requires sound { IsSound chain.now }
    ensures { OnOk result (list.new.items ≡ list.old.items ++ pairs chain.now) }
{
    let Extent { fences, room, .. } = extent_of(chain);
    list.reserve(room)?;
    let Fences { high, .. } = fences;
    let mut edits: Edits<'_, u64, A> = Edits::from_buf(allocator(chain), [(0, None); MOST_EDITS]);
    pass(chain, high, edits.as_mut_slice(), 0, list)
}
