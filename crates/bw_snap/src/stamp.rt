ghost use Rattle.std.specs.Prelude.{◌≡◌, IfSome};
ghost use Rattle.left_right.specs.Sides.{view};

use crate::ends::ReadingEnd;
use crate::front::{Front, Naming};
use std::marker::Model;

/// A published list, with a reading end that begins there if there was a place for one. Contracts see
/// it as that list.
#[derive(Drop)]
pub struct Stamp<N: Naming> {
    pub(crate) inner: Option<ReadingEnd<N>>,
    pub(crate) front: Front,
}

impl<N: Naming> Model for Stamp<N> {
    ghost use Rattle.std.specs.Prelude.{◌≡◌, List, IfSome};
    ghost use Rattle.bw_step.specs.Proposals.{Proposal};
    ghost use Rattle.bw_snap.specs.Codes.{steps_code};
    ghost use Rattle.left_right.specs.Sides.{view as learnt_by};

    ghost Value = { List Proposal };

    ghost coded = { steps_code };

    ghost view = { λ s. s.front.list };

    ghost invariant = { λ s. (s.front.announcements ≡ N.announcements)
        × IfSome s.inner (λ end. learnt_by end.place ≡ s.front.list) };
}

impl<N: Naming> Stamp<N> {
    pub(crate) fn over(inner: Option<ReadingEnd<N>>, front: Front) -> Stamp<N>
        requires announcements { front.announcements ≡ N.announcements }
        requires list { IfSome inner (λ end. view end.place ≡ front.list) }
        ensures { result ≡ front.list }
    {
        Stamp { inner, front }
    }
}
