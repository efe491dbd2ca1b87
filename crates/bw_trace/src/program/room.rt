//! How many pages a trace needs.

use bw_texts::{Act, Row};
use bw_work::{Put, Reply, Set};

/// What is said if no table may have pages enough.
pub(crate) const NO_ROOM: &str =
    "even --pages 65536, the most, may be too few, but --trees divides the keys";

/// The most pages of a table.
const MOST_PAGES: u64 = 65_536;

/// A tree of so many pages has fewer levels.
const LEVELS: u32 = 40;

/// Returns how many pages have room for so many pairs that are brought in, in any order, or none if
/// a table may have too few.
///
/// A page is split if it has more than `fanout` entries, and either part has half of them at least,
/// but for the last page of a level. So each split uses up as many new entries as half a page has. A
/// page is merged if it has fewer entries than a quarter of the fanout, and brings them to the next.
pub(crate) fn pages_for(pairs: u64, fanout: u32, workers: u32) -> Option<u64> {
    let half = u64::from(fanout).saturating_add(1) / 2;
    let quarter = u64::from(fanout) / 4;
    let used_up = half.saturating_add(1).saturating_sub(quarter).max(2);
    let mut pages = u64::from(workers);
    let mut entries = pairs;
    for _ in 0..LEVELS {
        pages = pages
            .saturating_add(entries / half.max(2))
            .saturating_add(2);
        entries = entries / used_up;
        if entries == 0 {
            break;
        }
    }
    (pages <= MOST_PAGES).then_some(pages.max(8))
}

/// Returns how many pairs were brought in by what the replies answer.
pub(crate) fn pairs_brought(replies: &[Reply]) -> u64 {
    let mut pairs: u64 = 0;
    for reply in replies {
        if brings_a_pair(reply) {
            pairs = pairs.saturating_add(1);
        }
    }
    pairs
}

fn brings_a_pair(reply: &Reply) -> bool {
    match *reply {
        Reply::Put(done) => done.reply == Put::Inserted,
        Reply::Set(done) => done.reply == Set::Inserted,
        Reply::Delete(_) | Reply::Get(_) | Reply::Clear(_) => false,
    }
}

/// Returns how many pairs the rows bring in at most.
pub(crate) fn pairs_to_bring(rows: &[Row]) -> u64 {
    let mut pairs: u64 = 0;
    for row in rows {
        if matches!(row.act, Act::Put { .. } | Act::Set { .. }) {
            pairs = pairs.saturating_add(1);
        }
    }
    pairs
}
