//! The announcements of a tree: lists of accepted steps, each a beginning of the next.

ghost use Rattle.std.specs.Prelude.{◌≡◌, []};
ghost use Rattle.bw_snap.specs.Snapshots.{GoesOn};
ghost use Rattle.bw_snap.specs.Fronts.{head_of};

use crate::proposed::List;
use bw_tree::MadeBy;
use logbook::{Gain, Play, Rule, Seen, Start, Word};
use std::marker::{Brand, Model, PhantomData};

/// The rule of announcements: each list begins with the one before it.
pub struct Rising;

impl Rule<List, u64> for Rising {
    ghost use Rattle.std.specs.Prelude.{[]};
    ghost use base.Fml.{ftrue};
    ghost use Rattle.bw_snap.specs.Fronts.{IsKept};

    ghost holds = { λ cells log. IsKept cells log };

    ghost first = { [] };

    ghost hinted = { λ number log. Unit {0} };

    ghost shows = { λ log. [] };

    ghost keeps = { λ names log. ftrue };

    ghost moves = { λ ask before after answer. Unit {0} };
}

/// Announcing a list takes and yields nothing else.
pub struct Nothing;

impl Gain<List, u64> for Nothing {
    ghost use base.Fml.{ftrue};

    ghost after = { λ names about answer. ftrue };
}

/// The step that announces a list.
pub struct Add;

impl Play<List, u64> for Add {
    ghost use Rattle.bw_snap.specs.Fronts.{Adds};

    ghost then = { Adds };
}

/// A ledger of insertions that names a tree with readers: by its configuration and its announcements.
pub trait Naming: MadeBy {
    ghost use Rattle.logbook.specs.Pages.{Book};

    // the log in which the lists are announced
    ghost announcements: { Book };
}

impl Naming for Brand {
    ghost announcements = { record { number = 0; log_name = 0; cells_name = 0 } };
}

/// The announcements of a tree to be made: no list yet.
#[derive(Drop)]
pub struct Announcements {
    head: Word<List, u64, Rising>,
    seen: Seen<List, u64, Rising>,
    pub ghost empty: { seen.log ≡ [] },
    pub ghost head_is: { head ≡ head_of seen.book },
}

impl Announcements {
    /// Returns announcements without a list. Takes no memory.
    pub fn new() -> Announcements {
        let (seen, mut first, _second) = Seen::open(Start::alone(), 0, 0);
        Announcements {
            head: Word::tracked(0, &mut first),
            seen,
        }
    }

    /// Returns the tree's word, and the front that has seen nothing.
    pub(crate) fn named<N: Naming>(self) -> (Head<N>, Front)
        requires { self.seen.book ≡ N.announcements }
        ensures { result.1 ≡ record { list = []; announcements = N.announcements } }
    {
        let Announcements { head, seen } = self;
        let head = Head {
            word: head,
            of: PhantomData,
        };
        let front = Front { count: 0, seen };
        (head, front)
    }
}

/// The word that counts the announced lists. Whoever has it may announce one.
#[derive(Drop)]
pub struct Head<N: Naming> {
    pub(crate) word: Word<List, u64, Rising>,
    of: PhantomData<N>,
    ghost is_head: { word ≡ head_of N.announcements },
}

/// A list that was announced, with all that were announced before it. Contracts see it as that
/// list, with the announcements in which it is.
#[derive(Drop)]
pub struct Front {
    pub(crate) count: u64,
    pub(crate) seen: Seen<List, u64, Rising>,
}

impl Model for Front {
    ghost use Rattle.std.specs.Prelude.{◌≡◌, [], length};
    ghost use Rattle.bw_snap.specs.Fronts.{Announced, Rise, newest};

    ghost Value = { Announced };

    ghost view = { λ f. record { list = newest [] f.seen.log; announcements = f.seen.book } };

    ghost invariant = { λ f. (f.count ≡ length f.seen.log) × Rise [] f.seen.log };
}

impl Front {
    /// Returns a copy.
    pub fn again(&self) -> Front
        ensures { result ≡ self.now }
    {
        Front {
            count: self.count,
            seen: self.seen.again(),
        }
    }

    /// Returns whether this list was announced no earlier than the other: if so, it begins with the
    /// other, and if not, the other begins with it.
    pub fn goes_on(&self, other: &Front) -> bool
        requires { other.now.announcements ≡ self.now.announcements }
        ensures { GoesOn result self.now.list other.now.list }
    {
        let mut both = self.seen.again();
        both.learn(&other.seen);
        if self.count < other.count {
            return false;
        }
        true
    }
}
