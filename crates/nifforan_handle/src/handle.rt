ghost use Rattle.std.specs.Prelude.{◌≡◌};
ghost use Rattle.std.specs.Option.{MatchOption};
ghost use Rattle.nifforan_handle.specs.Owned.{held_at, held_code};
ghost use Rattle.nifforan_handle.specs.declared.held.Held.{Held};
ghost use Rattle.nifforan_handle.specs.declared.held.Held.TheVariants.{Closed};

use crate::held::Held;
use crate::loose::Loose;
use std::alloc::Global;
use std::marker::Model;
use std::mem::replace;
use std::ptr::null_mut;

/// One pointer: null, or the place of what the handle holds, in a box of its own. It may go to
/// another thread.
#[repr(C)]
pub struct Handle {
    at: *mut (),
    pub ghost held: { Held } by { held_code },
}

impl Model for Handle {
    ghost also_owns = { λ h. held_at h.at h.held };
}

impl Handle {
    /// Returns a handle without a map.
    pub fn closed() -> Handle
        ensures { result.held ≡ Closed }
    {
        Handle { at: null_mut() }
    }

    /// Returns a handle that holds what the box has.
    pub fn of(held: Box<Held>) -> Handle
        ensures { result.held ≡ held.value }
    {
        Handle::of_loose(Loose::of(held))
    }

    fn of_loose(held: Loose<Held>) -> Handle
        ensures { result.held ≡ held.value }
    {
        let Loose { at } = held;
        Handle { at: at as *mut () }
    }

    /// Returns what the handle holds, or `None` if it has no box: then it is closed.
    pub fn into_box(self, alloc: Global) -> Option<Box<Held>>
        ensures { MatchOption result (self.held ≡ Closed) (λ held. self.held ≡ held.value) }
    {
        let Handle { at } = self;
        if at.is_null() {
            return None;
        }
        let held = unsafe { Box::from_raw(alloc, at as *mut Held) };
        Some(held)
    }

    /// Takes out what the handle holds, if it has a box, and closes the handle.
    pub(crate) fn take(&mut self, alloc: Global) -> Option<Box<Held>>
        ensures held { MatchOption result (self.old.held ≡ Closed)
            (λ held. self.old.held ≡ held.value) }
        ensures closed { self.new.held ≡ Closed }
    {
        replace(self, Handle::closed()).into_box(alloc)
    }

    /// Holds this from now on, and frees what it held before.
    pub(crate) fn hold(&mut self, alloc: Global, held: Box<Held>)
        ensures { self.new.held ≡ held.value }
    {
        drop(replace(self, Handle::of(held)).into_box(alloc));
    }

    /// Returns the handle, as the thread that takes it over has it.
    pub fn sent(self) -> Handle
        ensures { result ≡ self }
    {
        passed_on(self)
    }
}

// What it holds is its own, or is shared by an `Arc`; any thread may free its box.
unsafe impl Send for Handle {}

/// Returns the value, which must be one that may go to another thread.
fn passed_on<T: Send>(value: T) -> T
    ensures { result ≡ value }
{
    value
}
