//! The memory of pages, in entries and links.

ghost use Rattle.std.specs.Prelude.{◌≡◌, sum_by};
ghost use Rattle.bw_draw.specs.Figures.{capped, entries_stored, links_below, entries_of, links_of};

use crate::page::Page;
use bw_delta::{Chain, Node};
use bw_keys::Key;
use std::alloc::{Allocator, Global};

/// Returns the size of an entry of a base page.
pub(crate) fn entry_bytes() -> u64 {
    size_of::<(Key, u64)>() as u64
}

/// Returns the size of a link that lies in a box.
pub(crate) fn link_bytes() -> u64 {
    size_of::<Chain<Global>>() as u64
}

/// Returns the number of entries that the base pages list, at most 2^64 - 1.
pub(crate) fn stored_entries(pages: &[Page]) -> u64
    ensures { result ≡ capped (sum_by entries_of pages.now) }
{
    let mut stored = 0u64;
    for page in pages {
        stored = stored.saturating_add(page.stored_entries());
    }
    stored
}

/// Returns the number of links in boxes, at most 2^64 - 1.
pub(crate) fn stored_links(pages: &[Page]) -> u64
    ensures { result ≡ capped (sum_by links_of pages.now) }
{
    let mut links = 0u64;
    for page in pages {
        links = links.saturating_add(page.stored_links());
    }
    links
}

impl Page {
    fn stored_entries(&self) -> u64
        ensures { result ≡ capped (entries_of self.now) }
    {
        match &self.chain {
            Some(chain) => entries_below(chain),
            None => 0,
        }
    }

    fn stored_links(&self) -> u64
        ensures { result ≡ capped (links_of self.now) }
    {
        match &self.chain {
            Some(chain) => links_below(chain),
            None => 0,
        }
    }
}

/// Returns the number of entries that the bases of the chain list.
fn entries_below<A: Allocator + Copy>(chain: &Chain<A>) -> u64
    ensures { result ≡ capped (entries_stored chain.now) }
{
    match &chain.node {
        Node::Bare(base) => base.len() as u64,
        Node::Above(_, below) => entries_below(below),
        Node::Merged(_, left, right) => entries_below(left).saturating_add(entries_below(right)),
    }
}

/// Returns the number of links below the newest one.
fn links_below<A: Allocator + Copy>(chain: &Chain<A>) -> u64
    ensures { result ≡ capped (links_below chain.now) }
{
    match &chain.node {
        Node::Bare(_) => 0,
        Node::Above(_, below) => links_below(below).saturating_add(1),
        Node::Merged(_, left, right) => links_below(left)
            .saturating_add(links_below(right))
            .saturating_add(2),
    }
}
