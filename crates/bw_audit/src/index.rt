ghost use Rattle.std.specs.Prelude.{◌≡◌, ◌+◌, ◌<◌, ◌≤◌, IfOk, IfSome, length, take};
ghost use Rattle.bw_keys.specs.Ranges.{key_count};
ghost use Rattle.bw_audit.specs.Changes.{bearer, value_at};
ghost use Rattle.bw_audit.specs.Verdicts.{is_misnumbered};
ghost use Rattle.std.specs.List.Sorted.{IsSorted};
ghost use Rattle.bw_audit.specs.Indexed.{after_of, is_upto, is_within, pair_cmp, pair_left, rows_upto, AreLeft, ArePlaces, Indexes, IsCountUpto, IsLeftBy};

use crate::change::Change;
use crate::guide::Guide;
use crate::verdict::AuditFault;
use bw_keys::Key;
use std::alloc::Global;
use std::marker::Model;

/// The changes of a history, by number and by key. Contracts see the list of changes.
#[derive(Drop)]
pub struct Index {
    changes: Vec<Change>,
    /// The first place of each number from 0 to the count of changes. Greater numbers are false, and
    /// take no memory.
    places: Vec<Option<usize>>,
    /// The key and the number of the first change of each number from 1 to the count, in order.
    rows: Vec<(Key, u64)>,
    /// What each of these leaves of its key: a look-up reads two lists, and no change.
    left: Vec<Option<u64>>,
    guide: Guide,
}

impl Model for Index {
    ghost use Rattle.std.specs.Prelude.{List};
    ghost use Rattle.bw_audit.specs.declared.change.Change.{Change};
    ghost use Rattle.bw_audit.specs.Indexed.{AreLeft, Indexes};

    ghost Value = { List Change };

    ghost view = { λ s. s.changes.items };

    ghost invariant = { λ s. Indexes s.places.items s.rows.items s.changes.items
        × AreLeft s.changes.items s.rows.items s.left.items };
}

impl Index {
    /// Returns the index of the changes.
    pub fn new(machine: Global, changes: Vec<Change>) -> Result<Index, AuditFault>
        ensures { IfOk result (λ index. index ≡ changes.items) }
    {
        let places = first_places(machine, changes.as_slice())?;
        let mut rows = numbered_rows(machine, changes.as_slice(), places.as_slice())?;
        rows.sort_unstable();
        let left = values_left(
            machine,
            changes.as_slice(),
            places.as_slice(),
            rows.as_slice(),
        )?;
        let guide = Guide::new(machine, rows.as_slice())?;
        Ok(Index {
            changes,
            places,
            rows,
            left,
            guide,
        })
    }

    /// Returns the number of changes.
    pub fn count(&self) -> u64
        ensures { result ≡ length self.now }
    {
        self.changes.len() as u64
    }

    /// Returns whether the number is none of 1 to the count, or is that of one of the first `before`
    /// changes.
    #[tactic(auto, using(crate::proofs::Indexing::borne_at))]
    pub fn is_misnumbered(&self, before: usize, number: u64) -> bool
        ensures { result ≡ is_misnumbered self.now before number }
    {
        if number == 0 || self.count() < number {
            return true;
        }
        match self.places[number as usize] {
            Some(place) => place < before,
            None => false,
        }
    }

    /// Returns the value of the key after the changes 1 to `number`.
    pub fn value_after(&self, number: u64, key: Key) -> Option<u64>
        requires { number ≤ length self.now }
        ensures { result ≡ value_at self.now number key }
    {
        let last = count_upto(
            self.rows.as_slice(),
            self.guide.around(key),
            key,
            number,
        ).checked_sub(1)?;
        if self.rows[last].0 == key {
            self.left[last]
        } else {
            None
        }
    }

    /// Returns the pairs that all changes leave.
    pub fn pairs(&self, machine: Global) -> Result<Vec<(Key, u64)>, AuditFault>
        ensures { IfOk result (λ pairs. IsLeftBy self.now pairs.items) }
    {
        pairs_left(
            machine,
            self.changes.as_slice(),
            self.places.as_slice(),
            self.rows.as_slice(),
        )
    }
}

/// Returns what the first change with the number leaves of its key.
fn after(changes: &[Change], places: &[Option<usize>], number: u64) -> Option<u64>
    requires places { ArePlaces changes.now (length changes.now) places.now }
    requires number { number ≤ length changes.now }
    ensures { result ≡ after_of (bearer changes.now number) }
{
    match places[number as usize] {
        Some(place) => changes[place].after,
        None => None,
    }
}

/// Returns whether the row is of a lower key, or of this key and a number of at most this.
#[inline]
fn is_upto(row: (Key, u64), key: Key, number: u64) -> bool
    ensures { result ≡ is_upto key number row }
{
    row.0 < key || row.0 == key && row.1 <= number
}

/// Returns how many rows are of a lower key, or of this key and a number of at most this. Takes
/// O(log n) time for n rows, of which it reads few if the guess is right.
fn count_upto(rows: &[(Key, u64)], guess: (usize, usize), key: Key, number: u64) -> usize
    requires { IsSorted pair_cmp rows.now }
    ensures { IsCountUpto rows.now key number result }
{
    let (from, to) = guess;
    if !is_within(rows, from, to, key, number) {
        return rows.partition_point(|row| is_upto(*row, key, number));
    }
    from + rows[from..to].partition_point(|row| is_upto(*row, key, number))
}

/// Returns whether all rows before a range are counted, and none after it, by a look at its two
/// neighbours.
#[inline]
fn is_within(rows: &[(Key, u64)], from: usize, to: usize, key: Key, number: u64) -> bool
    ensures { result ≡ is_within key number from to rows.now }
{
    from <= to
        && to <= rows.len()
        && (from == 0 || is_upto(rows[from - 1], key, number))
        && (to == rows.len() || !is_upto(rows[to], key, number))
}

/// Returns what each row leaves of its key.
fn values_left(
    machine: Global,
    changes: &[Change],
    places: &[Option<usize>],
    rows: &[(Key, u64)],
) -> Result<Vec<Option<u64>>, AuditFault>
    requires { Indexes places.now rows.now changes.now }
    ensures { IfOk result (λ left. AreLeft changes.now rows.now left.items) }
{
    let mut left = Vec::with_capacity(machine, rows.len())?;
    for place in 0..rows.len() {
        left.push(after(changes, places, rows[place].1))?;
    }
    Ok(left)
}

/// Returns the first place of each number from 0 to the count of changes.
fn first_places(machine: Global, changes: &[Change]) -> Result<Vec<Option<usize>>, AuditFault>
    ensures { IfOk result (λ places. ArePlaces changes.now (length changes.now) places.items) }
{
    let mut places = Vec::from_elem(machine, None, changes.len() + 1)?;
    for place in 0..changes.len() {
        enter(&mut places, changes, place);
    }
    Ok(places)
}

/// Enters the place of a change, unless an earlier one has its number, or that is too great.
fn enter(places: &mut Vec<Option<usize>>, changes: &[Change], place: usize)
    requires inside { place < length changes.now }
    requires places { ArePlaces (take place changes.now) (length changes.now) places.old.items }
    ensures { ArePlaces (take (place + 1) changes.now) (length changes.now) places.new.items }
{
    let number = changes[place].number as usize;
    if number < places.len() && places[number].is_none() {
        places[number] = Some(place);
    }
}

/// Returns the key and the number of the first change of each number, in the order of the numbers.
fn numbered_rows(
    machine: Global,
    changes: &[Change],
    places: &[Option<usize>],
) -> Result<Vec<(Key, u64)>, AuditFault>
    requires { ArePlaces changes.now (length changes.now) places.now }
    ensures { IfOk result (λ rows. rows.items ≡ rows_upto changes.now (length changes.now)) }
{
    let mut rows = Vec::with_capacity(machine, changes.len())?;
    for last in 0..changes.len() {
        if let Some(place) = places[last + 1] {
            let change = &changes[place];
            rows.push((change.key, change.number))?;
        }
    }
    Ok(rows)
}

/// Returns the pairs that all changes leave, in the order of the rows.
fn pairs_left(
    machine: Global,
    changes: &[Change],
    places: &[Option<usize>],
    rows: &[(Key, u64)],
) -> Result<Vec<(Key, u64)>, AuditFault>
    requires { Indexes places.now rows.now changes.now }
    ensures { IfOk result (λ pairs. IsLeftBy changes.now pairs.items) }
{
    let mut pairs = Vec::new(machine);
    for place in 0..rows.len() {
        if let Some(pair) = pair_left(changes, places, rows, place) {
            pairs.push(pair)?;
        }
    }
    Ok(pairs)
}

/// Returns the pair that a row leaves in the end, if it is the last of its key.
fn pair_left(
    changes: &[Change],
    places: &[Option<usize>],
    rows: &[(Key, u64)],
    place: usize,
) -> Option<(Key, u64)>
    requires index { Indexes places.now rows.now changes.now }
    requires inside { place < length rows.now }
    ensures pair { result ≡ pair_left changes.now rows.now place }
    ensures below { IfSome result (λ pair. pair.0 < key_count) }
{
    let (key, number) = rows[place];
    if place + 1 < rows.len() && rows[place + 1].0 == key {
        return None;
    }
    let value = after(changes, places, number)?;
    Some((key, value))
}
