ghost use Rattle.std.specs.Prelude.{◌≡◌, ◌<◌, Some, None};
ghost use Rattle.bw_table.specs.Fields.{no_page};

use bw_keys::Pid;
use std::marker::Model;

/// The id of no page: a table has fewer.
pub(crate) const NO_PAGE: u32 = u32::MAX;

/// A link to a page, or to none, in 32 bits.
#[derive(Clone, Copy)]
pub(crate) struct Link {
    id: u32,
}

impl Model for Link {
    ghost use Rattle.std.specs.Prelude.{Option};
    ghost use Rattle.bw_keys.specs.declared.page.Pid.{Pid};

    ghost Value = { Option Pid };

    ghost use Rattle.bw_table.specs.Fields.{link_in, id_for, id_for-link_in};

    ghost view = { λ l. link_in l.id };

    ghost inverse = { λ link. record { id = id_for link } };

    ghost inverse_ok = { λ l h i. record { id = id_for-link_in l.id i } };
}

impl Link {
    #[inline(always)]
    pub(crate) fn to(page: Pid) -> Link
        requires { page.0 < no_page }
        ensures { result ≡ Some page }
    {
        Link { id: page.0 }
    }

    #[inline(always)]
    pub(crate) fn none() -> Link
        ensures { result ≡ None }
    {
        Link { id: NO_PAGE }
    }

    #[inline(always)]
    pub(crate) fn page(self) -> Option<Pid>
        ensures { result ≡ self }
    {
        if self.id == NO_PAGE {
            None
        } else {
            Some(Pid(self.id))
        }
    }
}
