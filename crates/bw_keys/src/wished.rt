//! What is wished of one key.

/// A change of one key's value.
#[derive(Clone, Copy, Debug, PartialEq, Eq, Hash)]
pub enum Wished {
    /// Adds the value, unless the key has one.
    Put(u64),
    /// Adds the value, or overwrites the one there.
    Set(u64),
    /// Deletes the value, if there is one.
    Delete,
}
