//! Maps that no call changes, which several handles hold at once.

ghost use Rattle.std.specs.Prelude.{◌≡◌, None, Some, IfOk, IfErr};
ghost use Rattle.nifforan_handle.specs.Frozen.{Freezes, Thaws, IsShareOf, WhyNotShared};
ghost use Rattle.nifforan_handle.specs.declared.held.Held.TheVariants.{Closed};

use crate::held::Held;
use crate::status::{CLOSED, FROZEN, NO_MEMORY, NOT_FROZEN, OK, SHARED};
use std::alloc::Global;
use std::mem::replace;
use std::sync::Arc;

impl Held {
    /// Freezes the map, unless it is frozen already or memory is short.
    pub(crate) fn freeze(&mut self, alloc: Global) -> u32
        ensures { Freezes result self.old self.new }
    {
        match replace(self, Held::Closed) {
            Held::Closed => CLOSED,
            Held::Own(map) => match Arc::new(alloc, map) {
                Ok(shared) => {
                    *self = Held::Frozen(shared);
                    OK
                }
                Err(failed) => {
                    *self = Held::Own(failed.value);
                    NO_MEMORY
                }
            },
            Held::Frozen(shared) => {
                *self = Held::Frozen(shared);
                FROZEN
            }
        }
    }

    /// Takes the map back to change it, unless others hold it too.
    pub(crate) fn thaw(&mut self) -> u32
        ensures { Thaws result self.old self.new }
    {
        match replace(self, Held::Closed) {
            Held::Closed => CLOSED,
            Held::Own(map) => {
                *self = Held::Own(map);
                NOT_FROZEN
            }
            Held::Frozen(shared) => match Arc::try_unwrap(shared) {
                Ok(map) => {
                    *self = Held::Own(map);
                    OK
                }
                Err(shared) => {
                    *self = Held::Frozen(shared);
                    SHARED
                }
            },
        }
    }

    /// Returns one more owner of the frozen map, or the status that says why there is none.
    pub(crate) fn share(&self) -> Result<Held, u32>
        ensures share { IfOk result (IsShareOf self.now) }
        ensures status { IfErr result (WhyNotShared self.now) }
    {
        match self {
            Held::Closed => Err(CLOSED),
            Held::Own(_) => Err(NOT_FROZEN),
            Held::Frozen(shared) => match Arc::try_clone(shared) {
                Ok(another) => Ok(Held::Frozen(another)),
                Err(_) => Err(NO_MEMORY),
            },
        }
    }
}
