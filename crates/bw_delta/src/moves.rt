//! Moves by one place within two lists at once, eight entries a turn.

ghost use Rattle.std.specs.Prelude.{◌≡◌, ◌≤◌, ◌<◌, ◌+◌, ◌-◌, ◌++◌, length, take, drop};
ghost use Rattle.bw_delta.specs.Moves.{raised, lowered};

use bw_keys::Key;

/// Moves the entries from the place on one place up, over the last one. It begins at the end, so the
/// entry at the place comes last, and stays there as well.
#[inline(always)]
pub(crate) fn move_up<X: Copy>(keys: &mut [Key], values: &mut [X], place: usize)
    requires even { length values.old ≡ length keys.old }
    requires inside { place < length keys.old }
    ensures keys { keys.new ≡ raised place keys.old }
    ensures values { values.new ≡ raised place values.old }
{
    let last = keys.len() - 1;
    if last - place < 8 {
        move_few_up(keys, values, place, last);
    } else {
        move_eights_up(keys, values, place, last);
    }
}

/// Moves them one by one.
#[inline(always)]
fn move_few_up<X: Copy>(keys: &mut [Key], values: &mut [X], place: usize, last: usize)
    requires even { length values.old ≡ length keys.old }
    requires place { place ≤ last }
    requires last { last + 1 ≡ length keys.old }
    ensures keys { keys.new ≡ raised place keys.old }
    ensures values { values.new ≡ raised place values.old }
{
    let mut at = last;
    'up: while at > place {
        at -= 1;
        keys[at + 1] = keys[at];
        values[at + 1] = values[at];
    }
}

/// Moves them by eights, and the first eight at last: those are kept apart, as some of them may have
/// been moved before.
#[inline(always)]
fn move_eights_up<X: Copy>(keys: &mut [Key], values: &mut [X], place: usize, last: usize)
    requires even { length values.old ≡ length keys.old }
    requires eight { place + 8 ≤ last }
    requires last { last + 1 ≡ length keys.old }
    ensures keys { keys.new ≡ raised place keys.old }
    ensures values { values.new ≡ raised place values.old }
{
    let first_keys = eight_from(keys, place);
    let first_values = eight_from(values, place);
    let mut at = last;
    'up: while at > place + 8 {
        at -= 8;
        put_eight(keys, at + 1, eight_from(keys, at));
        put_eight(values, at + 1, eight_from(values, at));
    }
    put_eight(keys, place + 1, first_keys);
    put_eight(values, place + 1, first_values);
}

/// Moves the entries after the place one place down, over the one at the place. The last one stays
/// where it was as well.
#[inline(always)]
pub(crate) fn move_down<X: Copy>(keys: &mut [Key], values: &mut [X], place: usize)
    requires even { length values.old ≡ length keys.old }
    requires inside { place < length keys.old }
    ensures keys { keys.new ≡ lowered place (length keys.old - 1) keys.old }
    ensures values { values.new ≡ lowered place (length values.old - 1) values.old }
{
    let last = keys.len() - 1;
    if last - place < 8 {
        move_few_down(keys, values, place, last);
    } else {
        move_eights_down(keys, values, place, last);
    }
}

/// Moves them one by one.
#[inline(always)]
fn move_few_down<X: Copy>(keys: &mut [Key], values: &mut [X], place: usize, last: usize)
    requires even { length values.old ≡ length keys.old }
    requires place { place ≤ last }
    requires last { last + 1 ≡ length keys.old }
    ensures keys { keys.new ≡ lowered place last keys.old }
    ensures values { values.new ≡ lowered place last values.old }
{
    let mut at = place;
    'down: while at < last {
        keys[at] = keys[at + 1];
        values[at] = values[at + 1];
        at += 1;
    }
}

/// Moves them by eights, and the last eight at last: those are kept apart, as some of them may have
/// been moved before.
#[inline(always)]
fn move_eights_down<X: Copy>(keys: &mut [Key], values: &mut [X], place: usize, last: usize)
    requires even { length values.old ≡ length keys.old }
    requires eight { place + 8 ≤ last }
    requires last { last + 1 ≡ length keys.old }
    ensures keys { keys.new ≡ lowered place last keys.old }
    ensures values { values.new ≡ lowered place last values.old }
{
    let behind = last - 8;
    let last_keys = eight_from(keys, behind + 1);
    let last_values = eight_from(values, behind + 1);
    let mut at = place;
    'down: while at < behind {
        put_eight(keys, at, eight_from(keys, at + 1));
        put_eight(values, at, eight_from(values, at + 1));
        at += 8;
    }
    put_eight(keys, behind, last_keys);
    put_eight(values, behind, last_values);
}

/// Returns the eight items from the place on.
#[inline(always)]
fn eight_from<T: Copy>(items: &[T], place: usize) -> [T; 8]
    requires { place + 8 ≤ length items.now }
    ensures { result ≡ take 8 (drop place items.now) }
{
    [
        items[place],
        items[place + 1],
        items[place + 2],
        items[place + 3],
        items[place + 4],
        items[place + 5],
        items[place + 6],
        items[place + 7],
    ]
}

/// Writes eight items from the place on.
#[inline(always)]
fn put_eight<T: Copy>(items: &mut [T], place: usize, eight: [T; 8])
    requires { place + 8 ≤ length items.old }
    ensures { items.new ≡ take place items.old ++ eight ++ drop (place + 8) items.old }
{
    items[place] = eight[0];
    items[place + 1] = eight[1];
    items[place + 2] = eight[2];
    items[place + 3] = eight[3];
    items[place + 4] = eight[4];
    items[place + 5] = eight[5];
    items[place + 6] = eight[6];
    items[place + 7] = eight[7];
}
