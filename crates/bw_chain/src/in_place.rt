//! Changes of one key that are made in the list of a base page, in place of a record over it.

ghost use Rattle.std.specs.Prelude.{◌≡◌, ◌↔◌, ◌<◌, ◌≤◌, None, Some, true, false, length, IfSome, IfNone, IsTrue};
ghost use Rattle.bw_delta.specs.declared.chain.Delta.TheVariants as deltas;
ghost use Rattle.bw_keys.specs.declared.range.Fence.TheVariants as fence;
ghost use Rattle.bw_delta.specs.Entries.{at, put, without, below};
ghost use Rattle.bw_delta.specs.Fence.{fences};
ghost use Rattle.bw_delta.specs.Pairs.{pairs, pairs_listed};
ghost use Rattle.bw_delta.specs.Pages.{lists_pairs, upper_part};
ghost use Rattle.bw_delta.specs.Records.{bare, above, depth};
ghost use Rattle.bw_delta.specs.Slices.{list_of};
ghost use Rattle.bw_delta.specs.Sound.{LiesIn, page_for};
ghost use Rattle.bw_chain.specs.Ascends.{IsAscending};
ghost use Rattle.bw_chain.specs.Pages.Halves.{listed_key_at};
ghost use Rattle.bw_chain.specs.InPlaces.{IsRouted, IsBehindSplit, WantsMemory, delta_for, inserts, joined_chain, pairs_with, chain_with, split_page, page_behind_split, uncovered};

use crate::entries::sorted::count_below_key;
use crate::page::part_from;
use crate::page::shape::allocator;
use bw_delta::{Base, Chain, Delta, Entries, EntryList, EntrySlice, Node};
use bw_keys::{Fence, FenceWord, Key, Pid, Wished};
use std::alloc::Allocator;
use std::mem;

/// What a change in place found and did.
#[derive(Clone, Copy, Debug, PartialEq, Eq)]
pub struct InPlace {
    /// The value that the key had.
    pub had: Option<u64>,
    /// The record with the same effect, or `None` if nothing had to change.
    pub delta: Option<Delta>,
}

/// Makes the change in the list of the base page, which may stand under the record of its split: a
/// change takes that in. Returns `None`, and changes nothing, if another record stands there or
/// memory is short.
#[inline(always)]
pub fn change_in_place<A: Allocator + Copy>(
    chain: &mut Chain<A>,
    key: Key,
    wished: Wished,
) -> Option<InPlace>
    requires within { LiesIn key (fences chain.old) }
    ensures had { IfSome result (λ done. done.had ≡ at key (pairs chain.old)) }
    ensures delta { IfSome result (λ done. done.delta ≡ delta_for wished key done.had) }
    ensures changed { IfSome result (λ done. chain.new ≡ chain_with done.delta chain.old) }
    ensures shallow { IfSome result (λ done. depth chain.old ≤ 1) }
    ensures unchanged { IfNone result (chain.new ≡ chain.old) }
    ensures memory { IfNone result (WantsMemory chain.old key wished) }
{
    let had = match &mut chain.node {
        Node::Bare(base) => change_on_base(base, key, wished)?,
        Node::Above(_, _) => change_behind_split(chain, key, wished)?,
        Node::Merged(_, _, _) => return None,
    };
    let delta = delta_for(wished, key, had);
    Some(InPlace { had, delta })
}

/// Returns the record that carries out the wish where the key has this value, or `None` if nothing
/// has to change.
#[inline(always)]
fn delta_for(wished: Wished, key: Key, had: Option<u64>) -> Option<Delta>
    ensures { result ≡ delta_for wished key had }
{
    match (wished, had) {
        (Wished::Put(_), Some(_)) | (Wished::Delete, None) => None,
        (Wished::Put(value) | Wished::Set(value), None) => Some(Delta::Insert(key, value)),
        (Wished::Set(value), Some(_)) => Some(Delta::Modify(key, value)),
        (Wished::Delete, Some(_)) => Some(Delta::Delete(key)),
    }
}

/// Makes the change under the record of a split, and takes that in unless nothing had to change.
/// Returns what the key had.
fn change_behind_split<A: Allocator + Copy>(
    chain: &mut Chain<A>,
    key: Key,
    wished: Wished,
) -> Option<Option<u64>>
    requires within { LiesIn key (fences chain.old) }
    ensures had { IfSome result (λ had. had ≡ at key (pairs chain.old)) }
    ensures changed { IfSome result
        (λ had. chain.new ≡ chain_with (delta_for wished key had) chain.old) }
    ensures shallow { IfSome result (λ had. depth chain.old ≤ 1) }
    ensures unchanged { IfNone result (chain.new ≡ chain.old) }
    ensures memory { IfNone result (1 ≤ depth chain.old → WantsMemory chain.old key wished) }
{
    let had = change_below_split(chain, key, wished)?;
    if delta_for(wished, key, had).is_some() {
        uncover(chain);
    }
    Some(had)
}

fn change_below_split<A: Allocator + Copy>(
    chain: &mut Chain<A>,
    key: Key,
    wished: Wished,
) -> Option<Option<u64>>
    requires within { LiesIn key (fences chain.old) }
    ensures had { IfSome result (λ had. had ≡ at key (pairs chain.old)) }
    ensures changed { IfSome result
        (λ had. IsBehindSplit (delta_for wished key had) chain.old chain.new) }
    ensures unchanged { IfNone result (chain.new ≡ chain.old) }
    ensures memory { IfNone result (1 ≤ depth chain.old → WantsMemory chain.old key wished) }
{
    match &mut chain.node {
        Node::Above(delta, below) => {
            let Delta::Split(separator, right) = *delta else {
                return None;
            };
            match &mut below.node {
                Node::Bare(base) => change_and_cut(base, separator, right, key, wished),
                Node::Above(_, _) | Node::Merged(_, _, _) => None,
            }
        }
        Node::Bare(_) | Node::Merged(_, _, _) => None,
    }
}

/// Makes the change in a base page that a split ends before the separator, and ends the page there
/// if anything changed.
fn change_and_cut<A: Allocator + Copy>(
    base: &mut Base<A>,
    separator: Key,
    right: Pid,
    key: Key,
    wished: Wished,
) -> Option<Option<u64>>
    requires within { LiesIn key (fences (split_page separator right base.old)) }
    ensures had { IfSome result
        (λ had. had ≡ at key (pairs (split_page separator right base.old))) }
    ensures changed { IfSome result (λ had.
        base.new ≡ page_behind_split separator right (delta_for wished key had) base.old) }
    ensures unchanged { IfNone result (base.new ≡ base.old) }
    ensures memory { IfNone result
        (WantsMemory (split_page separator right base.old) key wished) }
{
    if separator <= base.low || !base.high.fence().is_above(separator) {
        return None;
    }
    let had = change_on_base(base, key, wished)?;
    if delta_for(wished, key, had).is_some() {
        cut_base(base, separator, right);
    }
    Some(had)
}

/// Takes the newest record off the chain.
fn uncover<A: Allocator + Copy>(chain: &mut Chain<A>)
    ensures { chain.new ≡ uncovered chain.old }
{
    let hole = Node::Bare(Base::empty(*allocator(chain)));
    match mem::replace(&mut chain.node, hole) {
        Node::Above(_, below) => {
            let mut below = below;
            mem::swap(chain, &mut *below);
        }
        node => chain.node = node,
    }
}

#[inline(always)]
fn change_on_base<A: Allocator + Copy>(
    base: &mut Base<A>,
    key: Key,
    wished: Wished,
) -> Option<Option<u64>>
    requires within { LiesIn key (fences (bare base.old)) }
    ensures had { IfSome result (λ had. had ≡ at key (pairs_listed base.old.listed)) }
    ensures changed { IfSome result
        (λ had. bare base.new ≡ chain_with (delta_for wished key had) (bare base.old)) }
    ensures unchanged { IfNone result (base.new ≡ base.old) }
    ensures memory { IfNone result (lists_pairs base.old.listed ≡ true
        → inserts wished (at key (pairs_listed base.old.listed)) ≡ true) }
{
    match &mut base.entries {
        Entries::Pairs(pairs) => change_listed(pairs, key, wished),
        Entries::Routes(_) => None,
    }
}

#[inline(always)]
fn change_listed<A: Allocator + Copy>(
    pairs: &mut EntryList<u64, A>,
    key: Key,
    wished: Wished,
) -> Option<Option<u64>>
    requires ascending { IsAscending pairs.old }
    ensures had { IfSome result (λ had. had ≡ at key pairs.old) }
    ensures changed { IfSome result
        (λ had. pairs.new ≡ pairs_with (delta_for wished key had) pairs.old) }
    ensures unchanged { IfNone result (pairs.new ≡ pairs.old) }
    ensures memory { IfNone result (inserts wished (at key pairs.old) ≡ true) }
{
    let place = place_of(pairs.as_slice(), key);
    let had = entry_at(pairs.as_slice(), key, place);
    match (wished, had) {
        (Wished::Put(_), Some(_)) | (Wished::Delete, None) => {}
        (Wished::Put(value) | Wished::Set(value), None) => {
            if !insert_at(pairs, place, key, value) {
                return None;
            }
        }
        (Wished::Set(value), Some(_)) => pairs.set_value(place, value),
        (Wished::Delete, Some(_)) => pairs.remove(place),
    }
    Some(had)
}

/// Counts the entries below the key. A key above that of the last entry is found without a search.
#[inline(always)]
fn place_of<X: Copy>(entries: EntrySlice<'_, X>, key: Key) -> usize
    requires ascending { IsAscending (list_of entries) }
    ensures { result ≡ length (below key (list_of entries.entry)) }
{
    let count = entries.len();
    if count > 0 && entries.key(count - 1) < key {
        return count;
    }
    count_below_key(entries, key)
}

/// Inserts a new pair at its place. Returns false, and changes nothing, if memory is short.
#[inline(always)]
fn insert_at<A: Allocator + Copy>(
    pairs: &mut EntryList<u64, A>,
    place: usize,
    key: Key,
    value: u64,
) -> bool
    requires ascending { IsAscending pairs.old }
    requires place { place ≡ length (below key pairs.old) }
    requires absent { at key pairs.old ≡ None }
    ensures put { result ≡ true → pairs.new ≡ put key value pairs.old }
    ensures unchanged { result ≡ false → pairs.new ≡ pairs.old }
{
    pairs.insert(place, key, value).is_ok()
}

/// Returns what stands at the key, given its place.
#[inline(always)]
fn entry_at<X: Copy>(entries: EntrySlice<'_, X>, key: Key, place: usize) -> Option<X>
    requires ascending { IsAscending (list_of entries) }
    requires place { place ≡ length (below key (list_of entries)) }
    ensures value { result ≡ at key (list_of entries.entry) }
    ensures inside { IfSome result (λ value. place < length (list_of entries.entry)) }
{
    if place < entries.len() {
        let entry = entries.entry(place);
        if entry.0 == key {
            return Some(entry.1);
        }
    }
    None
}

/// Adds a route to the list of an inner page's base page. Returns false, and changes nothing, if a
/// record stands over the page, if a route is at the separator already, or if memory is short.
#[inline(always)]
pub fn route_in_place<A: Allocator + Copy>(chain: &mut Chain<A>, separator: Key, child: Pid) -> bool
    requires within { LiesIn separator (fences chain.old) }
    ensures routed { result ≡ true → IsRouted separator child chain.old chain.new }
    ensures unchanged { result ≡ false → chain.new ≡ chain.old }
{
    match &mut chain.node {
        Node::Bare(base) => route_on_base(base, separator, child),
        Node::Above(_, _) | Node::Merged(_, _, _) => false,
    }
}

#[inline(always)]
fn route_on_base<A: Allocator + Copy>(base: &mut Base<A>, separator: Key, child: Pid) -> bool
    requires within { LiesIn separator (fences (bare base.old)) }
    ensures routed { result ≡ true → IsRouted separator child (bare base.old) (bare base.new) }
    ensures unchanged { result ≡ false → base.new ≡ base.old }
{
    match &mut base.entries {
        Entries::Pairs(_) => false,
        Entries::Routes(routes) => route_listed(routes, separator, child),
    }
}

#[inline(always)]
fn route_listed<A: Allocator + Copy>(
    routes: &mut EntryList<Pid, A>,
    separator: Key,
    child: Pid,
) -> bool
    requires ascending { IsAscending routes.old }
    ensures absent { result ≡ true → at separator routes.old ≡ None }
    ensures put { result ≡ true → routes.new ≡ put separator child routes.old }
    ensures unchanged { result ≡ false → routes.new ≡ routes.old }
{
    let place = count_below_key(routes.as_slice(), separator);
    match entry_at(routes.as_slice(), separator, place) {
        Some(_) => false,
        None => routes.insert(place, separator, child).is_ok(),
    }
}

/// Returns the part of a base page from the entry with the number on, counted from 0, and the
/// separator at which it begins. The part has room for `room` entries before it asks for memory
/// again. Returns `None` if a record stands over the page, if there is no such entry, or if memory
/// is short.
pub fn upper_part_of<A: Allocator + Copy>(
    chain: &Chain<A>,
    number: usize,
    room: usize,
) -> Option<(Key, Base<A>)>
    ensures separator { IfSome result
        (λ part. listed_key_at number (page_for chain.now).listed ≡ Some part.0) }
    ensures page { IfSome result (λ part. part.1 ≡ upper_part part.0 (page_for chain.now)) }
{
    match &chain.node {
        Node::Bare(base) => match part_from(*allocator(chain), base, number, room) {
            Ok(part) => Some(part),
            Err(_) => None,
        },
        Node::Above(_, _) | Node::Merged(_, _, _) => None,
    }
}

/// Cuts a base page off at the separator and links it to the page that begins there. Returns false,
/// and changes nothing, if a record stands over the page.
pub fn cut_in_place<A: Allocator + Copy>(chain: &mut Chain<A>, separator: Key, right: Pid) -> bool
    requires within { LiesIn separator (fences chain.old) }
    requires later { (fences chain.old).low < separator }
    ensures cut { result ≡ true →
        chain.new ≡ bare (page_for (above (deltas.Split separator right) chain.old)) }
    ensures bare { IsTrue result ↔ (depth chain.old ≡ 0) }
    ensures unchanged { result ≡ false → chain.new ≡ chain.old }
{
    match &mut chain.node {
        Node::Bare(base) => {
            cut_base(base, separator, right);
            true
        }
        Node::Above(_, _) | Node::Merged(_, _, _) => false,
    }
}

fn cut_base<A: Allocator + Copy>(base: &mut Base<A>, separator: Key, right: Pid)
    requires within { LiesIn separator (fences (bare base.old)) }
    requires later { (fences (bare base.old)).low < separator }
    ensures { base.new ≡ page_for (split_page separator right base.old) }
{
    match &mut base.entries {
        Entries::Pairs(pairs) => cut_listed(pairs, separator),
        Entries::Routes(routes) => cut_listed(routes, separator),
    }
    base.high = FenceWord::new(Fence::Key(separator));
    base.right = Some(right);
}

fn cut_listed<A: Allocator + Copy, X: Copy>(entries: &mut EntryList<X, A>, separator: Key)
    requires ascending { IsAscending entries.old }
    ensures { entries.new ≡ below separator entries.old }
{
    let count = count_below_key(entries.as_slice(), separator);
    entries.truncate(count);
}

/// Takes the route at the separator, if there is one, out of the list of an inner page's base page.
pub fn unroute_in_place<A: Allocator + Copy>(chain: &mut Chain<A>, separator: Key)
    requires bare { depth chain.old ≡ 0 }
    ensures { chain.new ≡ bare (page_for (above (deltas.TermDelete separator) chain.old)) }
{
    match &mut chain.node {
        Node::Bare(base) => unroute_on_base(base, separator),
        Node::Above(_, _) | Node::Merged(_, _, _) => unreachable!(),
    }
}

fn unroute_on_base<A: Allocator + Copy>(base: &mut Base<A>, separator: Key)
    ensures { base.new ≡ page_for (above (deltas.TermDelete separator) (bare base.old)) }
{
    match &mut base.entries {
        Entries::Pairs(_) => {}
        Entries::Routes(routes) => unroute_listed(routes, separator),
    }
}

fn unroute_listed<A: Allocator + Copy>(routes: &mut EntryList<Pid, A>, separator: Key)
    requires ascending { IsAscending routes.old }
    ensures { routes.new ≡ without separator routes.old }
{
    let place = count_below_key(routes.as_slice(), separator);
    match entry_at(routes.as_slice(), separator, place) {
        Some(_) => routes.remove(place),
        None => {}
    }
}

/// Appends the entries of a page to those of the page on its left, which then ends where that one
/// does. Returns false, and changes nothing, if a record stands over one of the pages, if they are
/// of two kinds, or if memory is short.
pub fn join_in_place<A: Allocator + Copy>(left: &mut Chain<A>, right: &Chain<A>) -> bool
    requires meets { (fences left.old).high ≡ fence.Key (fences right.now).low }
    ensures joined { result ≡ true → left.new ≡ bare (page_for (joined_chain left.old right.now)) }
    ensures unchanged { result ≡ false → left.new ≡ left.old }
{
    let Node::Bare(base) = &right.node else {
        return false;
    };
    match &mut left.node {
        Node::Bare(into) => join_bases(into, base),
        Node::Above(_, _) | Node::Merged(_, _, _) => false,
    }
}

fn join_bases<A: Allocator + Copy>(into: &mut Base<A>, base: &Base<A>) -> bool
    requires meets { into.old.high ≡ fence.Key base.now.low }
    ensures joined { result ≡ true →
        into.new ≡ page_for (joined_chain (bare into.old) (bare base.now)) }
    ensures unchanged { result ≡ false → into.new ≡ into.old }
{
    match (&mut into.entries, &base.entries) {
        (Entries::Pairs(pairs), Entries::Pairs(more)) => {
            if pairs.append(more.as_slice()).is_err() {
                return false;
            }
        }
        (Entries::Routes(routes), Entries::Routes(more)) => {
            if routes.append(more.as_slice()).is_err() {
                return false;
            }
        }
        _ => return false,
    }
    into.high = base.high;
    into.right = base.right;
    true
}
