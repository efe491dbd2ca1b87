ghost use Rattle.std.specs.Prelude.{◌≡◌};
ghost use Rattle.bw_chain.specs.Searching.Deciding.{decides};
ghost use Rattle.bw_chain.specs.Passing.Edited.{edit_of};

use bw_keys::Key;

/// What one record changes of the entries below it, for entries of one kind.
#[derive(Clone, Copy)]
pub enum Change<X> {
    /// The key has this value.
    Put(Key, X),
    /// The key has no value.
    Without(Key),
    /// Only smaller keys have values.
    Below(Key),
    /// The record is of no concern to these entries.
    Nothing,
}

impl<X: Copy> Change<X> {
    /// Reports whether this alone decides what stands at the key.
    pub(crate) fn decides(self, key: Key) -> bool
        ensures { result ≡ decides key self }
    {
        match self {
            Change::Put(put, _) => put == key,
            Change::Without(gone) => gone == key,
            Change::Below(bound) => bound <= key,
            Change::Nothing => false,
        }
    }

    /// Returns the edit of a single key that this is, if it is one: the key's value, or that it has
    /// none.
    pub(crate) fn edit(self) -> Option<(Key, Option<X>)>
        ensures { result ≡ edit_of self }
    {
        match self {
            Change::Put(key, value) => Some((key, Some(value))),
            Change::Without(key) => Some((key, None)),
            Change::Below(_) | Change::Nothing => None,
        }
    }
}
