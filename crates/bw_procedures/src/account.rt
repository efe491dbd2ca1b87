//! What a worker keeps of the atomic steps that it took.

ghost use Rattle.std.specs.Prelude.{◌≡◌, ◌+◌, ◌<◌, ◌≤◌, [], Err, OnOk, length};
ghost use Rattle.bw_procedures.specs.Actions.{consolidates_behind, most_receipts, PerformedBy};
ghost use Rattle.bw_procedures.specs.Calls.{receipts_of_merge, receipts_of_shape, receipts_of_split};
ghost use Rattle.bw_procedures.specs.Seen.{ends_of, one_more};
ghost use Rattle.bw_procedures.specs.Accounts.{after_performed, after_shapes, after_visit};
ghost use Rattle.bw_procedures.specs.Accounts.{after_look, after_copy};
ghost use Rattle.bw_procedures.specs.Accounts.{after_receipt, after_refusal};

use crate::steps::{Ends, Keep};
use crate::trail::Trail;
use bw_delta::NoMemory;
use bw_keys::{Config, Key, Pid};
use bw_step::{
    Action, CopyFault, Denied, Go, Kind, Look, Performed, Receipt, Refused, Unperformed,
};
use std::alloc::Global;
use std::marker::Model;

/// A worker's account: its configuration, the receipts on its trail, its effort, and how often a
/// refusal ended a call. Effort and counts stay at 2^64 - 1 once there.
///
/// A worker reports each atomic step to its account, by the step's method here. A receipt is added
/// only where [`Account::reserve`] made room for it before the step. `T` says what becomes of it.
#[derive(Drop)]
pub struct Account<T: Trail = Vec<Receipt>> {
    config: Config,
    trail: T,
    effort: u64,
    ends: Ends,
}

impl<T: Trail> Model for Account<T> {
    ghost use Rattle.bw_procedures.specs.Accounts.{AccountValue};

    ghost Value = { AccountValue };

    ghost view = { λ a. record {
      seen = record {
        config = a.config;
        trail = T.added a.trail;
        effort = a.effort;
        full = a.ends.full;
        tall = a.ends.tall;
        worn = a.ends.worn;
      };
      room = T.room a.trail;
    } };
}

impl Account {
    /// Makes the account of a worker that has taken no step, with its trail in the machine's
    /// memory.
    #[inline(always)]
    pub fn new(machine: Global, config: Config) -> Account
        ensures config { result.seen.config ≡ config }
        ensures trail { result.seen.trail ≡ [] }
        ensures effort { result.seen.effort ≡ 0 }
        ensures ends { ends_of result.seen ≡ record { full = 0; tall = 0; worn = 0 } }
    {
        Account::with_trail(Vec::new(machine), config)
    }
}

impl<T: Trail> Account<T> {
    /// Makes the account of a worker that has spent no effort, and whose receipts are those of the
    /// trail.
    #[inline(always)]
    pub fn with_trail(trail: T, config: Config) -> Account<T>
        ensures config { result.seen.config ≡ config }
        ensures trail { result.seen.trail ≡ T.added trail }
        ensures effort { result.seen.effort ≡ 0 }
        ensures ends { ends_of result.seen ≡ record { full = 0; tall = 0; worn = 0 } }
    {
        Account {
            config,
            trail,
            effort: 0,
            ends: Ends::default(),
        }
    }

    /// Returns the configuration that the table was made by.
    #[inline(always)]
    pub fn config(&self) -> Config
        ensures { result ≡ self.now.seen.config }
    {
        self.config
    }

    /// Returns the effort that the worker has spent.
    #[inline(always)]
    pub fn effort(&self) -> u64
        ensures { result ≡ self.now.seen.effort }
    {
        self.effort
    }

    /// Returns how often a refusal ended a call.
    #[inline(always)]
    pub fn ends(&self) -> Ends
        ensures { result ≡ ends_of self.now.seen }
    {
        self.ends
    }

    /// Returns the receipts that are kept of the steps that were taken, in their order.
    #[inline(always)]
    pub fn trail(&self) -> &[Receipt]
        ensures { result.now ≡ T.kept self.now.seen.trail }
    {
        self.trail.receipts()
    }

    /// Returns the number of receipts on the trail.
    #[inline(always)]
    pub fn trail_len(&self) -> usize
        ensures { result ≡ length self.now.seen.trail }
    {
        self.trail.count()
    }

    /// Returns the trail.
    #[inline(always)]
    pub fn into_trail(self) -> T
        ensures trail { T.added result ≡ self.seen.trail }
        ensures room { T.room result ≡ self.room }
    {
        let Account { trail, .. } = self;
        trail
    }

    /// Returns the receipts since the last `take_trail`, and goes on with an empty trail in the
    /// same memory region. The trails returned, one after the other and with that of
    /// [`into_trail`](Account::into_trail) as the last, are the trail that `into_trail` alone would
    /// have returned.
    pub fn take_trail(&mut self) -> T
        ensures trail { T.added result ≡ self.old.seen.trail }
        ensures rest { self.new.seen ≡ record self.old.seen { trail = [] } }
    {
        self.trail.take()
    }

    /// Forgets the receipts, the effort and the counts, and goes on as a worker that has taken no
    /// step. The trail keeps its memory.
    #[inline(always)]
    pub fn forget(&mut self)
        ensures config { self.new.seen.config ≡ self.old.seen.config }
        ensures trail { self.new.seen.trail ≡ [] }
        ensures effort { self.new.seen.effort ≡ 0 }
        ensures ends { ends_of self.new.seen ≡ record { full = 0; tall = 0; worn = 0 } }
        ensures room { self.new.room ≡ self.old.room }
    {
        let Account {
            trail,
            effort,
            ends,
            ..
        } = self;
        trail.forget();
        *effort = 0;
        *ends = Ends::default();
    }

    /// Makes room for one more receipt. Fails for want of memory, with the trail as it was.
    #[inline(always)]
    pub fn reserve(&mut self) -> Result<(), NoMemory>
        ensures seen { self.new.seen ≡ self.old.seen }
        ensures room { OnOk result (length self.new.seen.trail < self.new.room) }
    {
        self.trail.make_room(1)
    }

    /// Makes room for four more receipts, as [`reserve`](Account::reserve) for one.
    pub fn reserve_four(&mut self) -> Result<(), NoMemory>
        ensures seen { self.new.seen ≡ self.old.seen }
        ensures room { OnOk result (length self.new.seen.trail + 3 < self.new.room) }
    {
        self.trail.make_room(4)
    }

    /// Makes room for five more receipts, as [`reserve`](Account::reserve) for one.
    pub fn reserve_five(&mut self) -> Result<(), NoMemory>
        ensures seen { self.new.seen ≡ self.old.seen }
        ensures room { OnOk result (length self.new.seen.trail + 4 < self.new.room) }
    {
        self.trail.make_room(5)
    }

    /// Makes room for the receipts of the action, as [`reserve`](Account::reserve) for one.
    #[inline(always)]
    pub fn reserve_for(&mut self, action: Action) -> Result<(), NoMemory>
        ensures seen { self.new.seen ≡ self.old.seen }
        ensures room { OnOk result
            (length self.new.seen.trail + most_receipts action ≤ self.new.room) }
    {
        match action {
            Action::Change { .. } | Action::Cut { .. } | Action::Post { .. } => {
                self.trail.make_room(2)
            }
            Action::Record { .. } | Action::Reshape { .. } | Action::AddTerm { .. } => {
                self.trail.make_room(1)
            }
        }
    }

    /// Reports an action that was performed: adds the receipt of its look or step, and where the
    /// action consolidates the page after it that of the consolidation. A step that changes the
    /// tree's shape costs effort.
    #[inline(always)]
    pub fn performed(&mut self, action: Action, done: Performed)
        requires { length self.old.seen.trail + most_receipts action ≤ self.old.room }
        ensures { self.new.seen ≡ after_performed action done self.old.seen }
    {
        self.accepted(done.receipt);
        if is_consolidated_behind(action, done.receipt) {
            self.accepted(Receipt::Shaped {
                kind: Kind::Consolidate,
                page: done.page,
                other: None,
            });
        }
    }

    /// Reports an action that wasn't performed. Where the step on a page that it names was refused,
    /// that costs effort, as [`refused`](Account::refused). What the other actions would find for
    /// themselves is proposed step by step instead.
    #[inline(always)]
    pub fn unperformed(&mut self, action: Action, why: Unperformed)
        ensures { PerformedBy action (Err why) self.old.seen self.new.seen }
    {
        match (action, why) {
            (Action::Reshape { .. }, Unperformed::Denied(Denied::Refused(reason))) => {
                self.refused(reason)
            }
            _ => {}
        }
    }

    /// Reports that a page was split and consolidated, and then the new page named in the parent
    /// and that consolidated, or wasn't (`posted`).
    pub fn split_at_once(&mut self, page: Pid, parent: Pid, new: Pid, posted: bool)
        requires { length self.old.seen.trail + 3 < self.old.room }
        ensures { self.new.seen
            ≡ after_shapes (receipts_of_split page parent new posted) self.old.seen }
    {
        self.reshaped(Kind::Split, page, new);
        if posted {
            self.reshaped(Kind::TermAdd, parent, new);
        }
    }

    /// Reports that a page was marked, that the left one took it in and was consolidated, and that
    /// the parent lost its term and was consolidated.
    pub fn merged_at_once(&mut self, page: Pid, parent: Pid, left: Pid)
        requires { length self.old.seen.trail + 4 < self.old.room }
        ensures { self.new.seen
            ≡ after_shapes (receipts_of_merge page parent left) self.old.seen }
    {
        self.trail.add(Receipt::Shaped {
            kind: Kind::Mark,
            page,
            other: None,
        });
        self.effort = self.effort.saturating_add(1);
        self.reshaped(Kind::Merge, left, page);
        self.reshaped(Kind::TermDelete, parent, page);
    }

    /// Reports a step that changed a page's shape, and the consolidation of the page.
    fn reshaped(&mut self, kind: Kind, page: Pid, other: Pid)
        requires { length self.old.seen.trail + 1 < self.old.room }
        ensures seen { self.new.seen
            ≡ after_shapes (receipts_of_shape kind page other) self.old.seen }
        ensures room { self.new.room ≡ self.old.room }
    {
        self.trail.add(Receipt::Shaped {
            kind,
            page,
            other: Some(other),
        });
        self.trail.add(Receipt::Shaped {
            kind: Kind::Consolidate,
            page,
            other: None,
        });
        self.effort = self.effort.saturating_add(2);
    }

    /// Reports that no step was taken, at the cost of one effort.
    #[inline(always)]
    pub fn idled(&mut self)
        ensures { self.new.seen ≡ record self.old.seen { effort = one_more self.old.seen.effort } }
    {
        self.effort = self.effort.saturating_add(1);
    }

    /// Reports a visit of a place, which costs effort where it was gone.
    #[inline(always)]
    pub fn visited(&mut self, go: Go)
        ensures { self.new.seen ≡ after_visit go self.old.seen }
    {
        match go {
            Go::Gone => self.idled(),
            Go::Right(_) | Go::Down(_) | Go::Here(_) => {}
        }
    }

    /// Reports a look for the key at a page, which costs effort where it wasn't the key's leaf.
    /// `keep` says when the look is added to the trail.
    #[inline(always)]
    pub fn looked(&mut self, key: Key, keep: Keep, look: Option<Look>)
        requires { length self.old.seen.trail < self.old.room }
        ensures { self.new.seen ≡ after_look keep key look self.old.seen }
    {
        let Some(look) = look else {
            self.idled();
            return;
        };
        if keep.keeps(look.found) {
            self.trail.add(Receipt::Looked {
                at: look.at,
                key,
                found: look.found,
            });
        }
    }

    /// Reports that a page was copied, or made anew, which costs effort where it was absent or has
    /// changed.
    #[inline(always)]
    pub fn copied<C>(&mut self, copy: &Result<C, CopyFault>)
        ensures { self.new.seen ≡ after_copy copy.now self.old.seen }
    {
        match copy {
            Ok(_) => {}
            Err(CopyFault::NoMemory) => {}
            Err(_) => self.idled(),
        }
    }

    /// Reports an accepted step, which costs effort where it changes the tree's shape, and adds its
    /// receipt to the trail.
    #[inline(always)]
    pub fn accepted(&mut self, receipt: Receipt)
        requires { length self.old.seen.trail < self.old.room }
        ensures seen { self.new.seen ≡ after_receipt receipt self.old.seen }
        ensures room { self.new.room ≡ self.old.room }
    {
        self.trail.add(receipt);
        if let Receipt::Shaped { .. } = receipt {
            self.effort = self.effort.saturating_add(1);
        }
    }

    /// Reports a refused step, which costs effort. Some refusals are counted.
    #[inline(always)]
    pub fn refused(&mut self, reason: Refused)
        ensures { self.new.seen ≡ after_refusal reason self.old.seen }
    {
        self.effort = self.effort.saturating_add(1);
        match reason {
            Refused::TableFull => self.ends.full = self.ends.full.saturating_add(1),
            Refused::TooTall => self.ends.tall = self.ends.tall.saturating_add(1),
            Refused::Worn => self.ends.worn = self.ends.worn.saturating_add(1),
            _ => {}
        }
    }
}

/// Whether the page is consolidated after what this is the receipt of, as it is after a change in
/// its place, and where a page is cut or posted.
#[inline(always)]
pub fn is_consolidated_behind(action: Action, receipt: Receipt) -> bool
    ensures { result ≡ consolidates_behind action receipt }
{
    match (action, receipt) {
        (Action::Change { .. }, Receipt::Looked { .. }) => false,
        (Action::Change { .. } | Action::Cut { .. } | Action::Post { .. }, _) => true,
        _ => false,
    }
}
