//! What one delta chain says: search, consolidation, halving and comparison.
//!
//! A chain is read from its newest record down to a base page (Levandoski et al., ICDE 2013; Wang
//! et al., "Building a Bw-Tree Takes More Than Just Buzz Words", SIGMOD 2018). Only calls that can
//! report a lack of memory take any.
//!
//! `search` looks up single keys, `pass` goes over all of a chain's entries, and `page` describes
//! the page that a chain stands for. `entries` has what differs between pairs and routes, so each
//! of the others is written once for both.
#![tactic(auto)]

mod appending;
mod entries;
mod in_place;
mod page;
mod pass;
mod search;

pub use appending::append_in_place;
pub use in_place::{
    InPlace, change_in_place, cut_in_place, join_in_place, route_in_place, unroute_in_place,
    upper_part_of,
};
pub use page::{HalveFault, depth, fences, halve, halve_with_room, is_leaf, middle_key};
pub use pass::{append_first_pairs, append_pairs, consolidate, count, is_upper_part, same};
pub use search::{
    child, child_page, find, has_pair_from, is_later_key, next_at, pairs_from, pairs_upto,
    pairs_within, previous_at, route_at, route_before,
};
