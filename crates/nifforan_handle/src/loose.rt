//! A box of the machine's memory as its pointer alone.
ghost use Rattle.std.specs.Prelude.{◌≡◌};
ghost use Rattle.nifforan_handle.specs.Owned.{boxed};

use std::marker::Model;

pub(crate) struct Loose<T> {
    pub(crate) at: *mut T,
    pub(crate) ghost value: { T },
}

impl<T> Model for Loose<T> {
    ghost also_owns = { λ l. boxed T.row l.at l.value };
}

impl<T: Drop> Loose<T> {
    pub(crate) fn of(value: Box<T>) -> Loose<T>
        ensures { result.value ≡ value.value }
    {
        Loose {
            at: Box::into_raw(value),
        }
    }
}
