ghost use Rattle.std.specs.Prelude.{◌≡◌, ◌↔◌, ◌<◌, ◌≤◌, length, drop, Some, None, IfOk, IfSome, IsErrOf};
ghost use Rattle.bw_delta.specs.Pages.{listed_length, upper_part};
ghost use Rattle.bw_delta.specs.PageView.{listed};
ghost use Rattle.bw_delta.specs.Slices.{list_of};
ghost use Rattle.bw_chain.specs.Pages.Halves.{listed_middle_key, listed_key_at, listed_behind, key_at};

use bw_delta::{Base, Entries, EntryList, EntrySlice};
use bw_keys::Key;
use std::alloc::Allocator;
use thiserror::Error;

/// Why a base page is not halved.
#[derive(Clone, Copy, Debug, PartialEq, Eq, Error)]
pub enum HalveFault {
    /// The page has fewer than two entries.
    #[error("too few entries to halve")]
    TooSmall,
    /// There is no memory for the new page.
    #[error("out of memory")]
    NoMemory,
}

/// Returns the upper half of a base page, and the separator at which it begins: of n entries, the
/// half has the one with number n / 2, counted from 0, and all after it (Levandoski et al., ICDE
/// 2013, "child split"). It ends where the page ends, and has the page's side link.
pub fn halve<A: Allocator + Copy>(alloc: A, base: &Base<A>) -> Result<(Key, Base<A>), HalveFault>
    ensures small { IsErrOf result HalveFault.TooSmall ↔ (listed_length base.now.listed < 2) }
    ensures separator { IfOk result (λ half. listed_middle_key base.now.listed ≡ Some half.0) }
    ensures page { IfOk result (λ half. half.1 ≡ upper_part half.0 base.now) }
{
    halve_with_room(alloc, base, 0)
}

/// Halves a base page as [`halve`] does. The upper half has room for `room` entries before it asks
/// for memory again.
pub fn halve_with_room<A: Allocator + Copy>(
    alloc: A,
    base: &Base<A>,
    room: usize,
) -> Result<(Key, Base<A>), HalveFault>
    ensures small { IsErrOf result HalveFault.TooSmall ↔ (listed_length base.now.listed < 2) }
    ensures separator { IfOk result (λ half. listed_middle_key base.now.listed ≡ Some half.0) }
    ensures page { IfOk result (λ half. half.1 ≡ upper_part half.0 base.now) }
{
    let middle = base.len() / 2;
    if middle == 0 {
        return Err(HalveFault::TooSmall);
    }
    part_from(alloc, base, middle, room)
}

/// Returns the separator at which the upper half of a base page begins, if the page has two entries
/// or more. It takes no memory.
pub fn middle_key<A: Allocator + Copy>(base: &Base<A>) -> Option<Key>
    ensures key { IfSome result (λ key. listed_middle_key base.now.listed ≡ Some key) }
    ensures small { (result ≡ None) ↔ (listed_length base.now.listed < 2) }
{
    let middle = base.len() / 2;
    if middle == 0 {
        return None;
    }
    match &base.entries {
        Entries::Pairs(pairs) => Some(pairs.as_slice().key(middle)),
        Entries::Routes(routes) => Some(routes.as_slice().key(middle)),
    }
}

/// Returns the part of a base page from the entry with the number on, counted from 0, and the
/// separator at which it begins. The part has room for `room` entries before it asks for memory
/// again. Fails with `TooSmall` if there is no such entry.
pub(crate) fn part_from<A: Allocator + Copy>(
    alloc: A,
    base: &Base<A>,
    number: usize,
    room: usize,
) -> Result<(Key, Base<A>), HalveFault>
    ensures small { IsErrOf result HalveFault.TooSmall ↔ (listed_length base.now.listed ≤ number) }
    ensures separator { IfOk result (λ part. listed_key_at number base.now.listed ≡ Some part.0) }
    ensures page { IfOk result (λ part. part.1 ≡ upper_part part.0 base.now) }
{
    let (separator, entries) = listed_from(alloc, &base.entries, number, room)?;
    let upper = Base {
        low: separator,
        high: base.high,
        right: base.right,
        entries,
    };
    Ok((separator, upper))
}

/// Returns the key of the entry with the number, and the entries from it on, of either kind.
fn listed_from<A: Allocator + Copy>(
    alloc: A,
    entries: &Entries<A>,
    number: usize,
    room: usize,
) -> Result<(Key, Entries<A>), HalveFault>
    ensures small { IsErrOf result HalveFault.TooSmall ↔
        (listed_length (listed entries.now) ≤ number) }
    ensures separator { IfOk result
        (λ part. listed_key_at number (listed entries.now) ≡ Some part.0) }
    ensures upper { IfOk result
        (λ part. listed part.1 ≡ listed_behind number (listed entries.now)) }
{
    match entries {
        Entries::Pairs(pairs) => {
            let (separator, upper) = entries_from(alloc, pairs.as_slice(), number, room)?;
            Ok((separator, Entries::Pairs(upper)))
        }
        Entries::Routes(routes) => {
            let (separator, upper) = entries_from(alloc, routes.as_slice(), number, room)?;
            Ok((separator, Entries::Routes(upper)))
        }
    }
}

/// Returns the key of the entry with the number, and the entries from it on.
fn entries_from<A: Allocator + Copy, X: Copy>(
    alloc: A,
    entries: EntrySlice<'_, X>,
    number: usize,
    room: usize,
) -> Result<(Key, EntryList<X, A>), HalveFault>
    ensures small { IsErrOf result HalveFault.TooSmall ↔ (length (list_of entries.entry) ≤ number) }
    ensures separator { IfOk result (λ part. key_at number (list_of entries.entry) ≡ Some part.0) }
    ensures upper { IfOk result (λ part. part.1 ≡ drop number (list_of entries.entry)) }
{
    if entries.len() <= number {
        return Err(HalveFault::TooSmall);
    }
    let separator = entries.key(number);
    let (_, upper) = entries.split_at(number);
    match EntryList::copied(alloc, upper, room) {
        Ok(upper) => Ok((separator, upper)),
        Err(_) => Err(HalveFault::NoMemory),
    }
}
