//! The atomic steps that a worker takes, and what each of them leaves of the worker.

ghost use Rattle.std.specs.Prelude.{◌≡◌};
ghost use Rattle.bw_procedures.specs.Seen.{is_kept};

use bw_chain::consolidate;
use bw_delta::{Base, Chain, NoMemory};
use bw_keys::{Config, Fence, Key, Pid, Version};
use bw_step::{
    Action, CopyFault, Denied, Look, Next, Performed, Place, Proposes, Receipt, Unperformed, View,
};
use std::alloc::Allocator;

/// When a look is added to the trail.
#[derive(Clone, Copy, Debug, PartialEq, Eq, Hash)]
pub enum Keep {
    /// Whatever it found.
    Always,
    /// Where it found a value.
    IfFound,
    /// Where it found none.
    IfNone,
    /// Whatever it found, it isn't.
    Never,
}

impl Keep {
    /// Returns whether a look that found this is added.
    #[inline(always)]
    pub fn keeps(self, found: Option<u64>) -> bool
        ensures { result ≡ is_kept self found }
    {
        match self {
            Keep::Always => true,
            Keep::IfFound => found.is_some(),
            Keep::IfNone => found.is_none(),
            Keep::Never => false,
        }
    }
}

/// How often a worker's step was refused for a reason that ends a call. Each count stays at
/// 2^64 - 1 once there.
#[derive(Clone, Copy, Debug, Default, PartialEq, Eq, Hash)]
pub struct Ends {
    /// Because no slot was free.
    pub full: u64,
    /// Because the tree had its greatest height.
    pub tall: u64,
    /// Because a version or the book's number was used up.
    pub worn: u64,
}

/// A worker's atomic steps on a table that others may change between any two of them, and what the
/// worker keeps of them: the receipts on its trail, its effort, and how often a refusal ended a
/// call.
///
/// `P` is the step over `A`.
pub trait Steps<A: Allocator + Copy, P: Proposes> {
    ghost use Rattle.std.specs.Prelude.{◌≡◌, ◌≤◌, ℕ, List, None, Ok, IfOk, OnErr, IfSome};
    ghost use Rattle.bw_step.specs.declared.receipt.Receipt.{Receipt as Reported};
    ghost use Rattle.bw_delta.specs.Records.{bare};
    ghost use Rattle.bw_delta.specs.Entries.{from};
    ghost use Rattle.bw_delta.specs.Sound.{IsSound};
    ghost use Rattle.bw_chain.specs.Leaves.{ReadsLeaf};
    ghost use Rattle.bw_step.specs.Steps.{IsNext};
    ghost use Rattle.bw_procedures.specs.Seen.{Seen, ends_of, Visited, Looked, LookedAtOnce, Copied};
    ghost use Rattle.bw_procedures.specs.Seen.{Installed, Idled};
    ghost use Rattle.bw_procedures.specs.Calls.{IsAtLevel, SplitAtOnce};
    ghost use Rattle.bw_procedures.specs.Actions.{PerformedBy};
    ghost use Rattle.bw_procedures.specs.Facts.{Fact, quiet, on_the_way, holds, fresh};
    ghost use Rattle.bw_procedures.specs.Facts.{CalmNext, CalmPeek, CalmLook, CalmCopy, CalmAnew};
    ghost use Rattle.bw_procedures.specs.Facts.{ShowsCopy};

    // the worker's configuration, its trail, its effort and its counts
    ghost seen: { Self → Seen };

    // which receipts of its trail the worker keeps: all of them, or none
    ghost kept: { List Reported → List Reported } = { λ trail. trail };

    // the receipts by which the second's trail is longer lead from one state to another
    ghost follows: { Self → Self → Type 0 };

    // these are the map's pairs from a key on and below an end
    ghost shows: { Self → ℕ → ℕ → List (ℕ × ℕ) → Type 0 };

    // nobody else takes steps, and a place, or a page, is as it was seen
    ghost calm: { Self → Fact → Type 0 };

    /// Returns the configuration that the table was made by.
    fn config(&self) -> Config
        ensures { result ≡ (seen self.now).config };

    /// Returns the allocator of the worker's steps.
    fn alloc(&self) -> A;

    /// Returns the place where every search begins.
    fn root(&self) -> Place
        ensures from { result.from ≡ 0 }
        ensures calm { calm self.now quiet → (key goal : ℕ) → goal ≤ result.level
            → calm self.now (on_the_way key goal result) };

    /// Returns the leaf whose range holds the key, where the worker can find it in one step and
    /// nothing on the way to it is unfinished. Otherwise none, and the worker walks there by
    /// visits.
    fn leaf_at_once(&self, _key: Key) -> Option<View>
        ensures level { IsAtLevel 0 result }
        ensures calm { calm self.now quiet → IfSome result (λ view.
            calm self.now (holds _key 0 view.pid) × calm self.now (fresh view.pid view.version)) }
    {
        None
    }

    /// Looks a key up, where the worker can find the key's leaf and look there in one step.
    /// Otherwise does nothing, and returns none. `keep` says when the look is added to the trail.
    /// Fails where the trail has no room.
    fn look_at_once(&mut self, _key: Key, _keep: Keep) -> Result<Option<Look>, NoMemory>
        ensures follows { follows self.old self.new }
        ensures seen { LookedAtOnce _keep _key result (seen self.old) (seen self.new) }
        ensures unanswered { result ≡ Ok None
            → (fact : Fact) → calm self.old fact → calm self.new fact }
    {
        Ok(None)
    }

    /// Appends the pairs of the key's leaf that lie from the key on and below the high to the list, the
    /// first `limit` of them, and returns where the leaf ends, where the worker can do that in one step.
    /// Otherwise appends nothing, and returns none. Fails where the list can't have room for them.
    fn read_at_once(
        &mut self,
        _key: Key,
        _high: Fence,
        _limit: usize,
        _list: &mut Vec<(Key, u64)>,
    ) -> Result<Option<Fence>, NoMemory>
        ensures follows { follows self.old self.new }
        ensures seen { seen self.new ≡ seen self.old }
        ensures read { IfOk result (λ end. ReadsLeaf (shows self.new) _key _high _limit end
            _list.old.items _list.new.items) }
        ensures unchanged { OnErr result (_list.new.items ≡ _list.old.items) }
        ensures unanswered { result ≡ Ok None
            → (fact : Fact) → calm self.old fact → calm self.new fact }
    {
        Ok(None)
    }

    /// Whether the worker looks a key up and puts the record of its change in one step when it has
    /// the choice.
    fn records_at_once(&self) -> bool {
        false
    }

    /// Performs the action if the worker can do so in one step. The receipt of its look or of its
    /// step joins the trail, followed by that of the consolidation if the action consolidates the
    /// page. Each step that changes the tree's shape costs effort, and so does the refusal of a step
    /// that would reshape a page. Any other failure leaves everything as it was.
    fn perform(&mut self, _action: Action) -> Result<Performed, Unperformed>
        ensures follows { follows self.old self.new }
        ensures seen { PerformedBy _action result (seen self.old) (seen self.new) }
    {
        Err(Unperformed::StepByStep)
    }

    /// Whether the worker splits and merges pages in one step, where it may choose.
    fn splits_at_once(&self) -> bool {
        false
    }

    /// Splits a page, consolidates it, names the new page in the parent and consolidates that, by
    /// all four steps, or by the first two where the parent doesn't take the new page so, and
    /// returns the new page. Their receipts are added to the trail, and each costs effort. None,
    /// and no step taken, where the worker can't.
    fn split_at_once(&mut self, _parent: Pid, _page: View) -> Option<Pid>
        ensures follows { follows self.old self.new }
        ensures seen { SplitAtOnce result (seen self.old) (seen self.new) }
    {
        None
    }

    /// Marks a page, merges it into its left neighbour, consolidates that, takes the page's term out of
    /// the parent and consolidates that too, by all five steps, and returns the left neighbour. Their
    /// receipts are added to the trail, and each costs effort. None, and no step taken, where the
    /// worker can't.
    fn merge_at_once(&mut self, _parent: Pid, _page: View) -> Option<Pid>
        ensures follows { follows self.old self.new }
        ensures seen { SplitAtOnce result (seen self.old) (seen self.new) }
    {
        None
    }

    /// Returns where a search for the key, down to the goal's level, goes from a place. A place
    /// that is gone costs effort.
    fn visit(&mut self, place: Place, key: Key, goal: u8) -> Next
        ensures follows { follows self.old self.new }
        ensures seen { Visited result.go (seen self.old) (seen self.new) }
        ensures next { IsNext place key goal result.go }
        ensures calm { calm self.old (on_the_way key goal place)
            → CalmNext (calm self.new) key goal result.go };

    /// Returns the page with the id, if there is one.
    fn peek(&mut self, pid: Pid) -> Option<View>
        ensures follows { follows self.old self.new }
        ensures seen { seen self.new ≡ seen self.old }
        ensures page { IfSome result (λ view. view.pid ≡ pid) }
        ensures calm { CalmPeek (calm self.new) pid result };

    /// Looks the key up at a page, if that is a leaf in its row whose range holds the key; if it
    /// isn't, returns none, at the cost of effort. `keep` says when the look is added to the trail.
    /// Fails where the trail has no room.
    fn look(&mut self, pid: Pid, key: Key, keep: Keep) -> Result<Option<Look>, NoMemory>
        ensures follows { follows self.old self.new }
        ensures seen { Looked keep key result (seen self.old) (seen self.new) }
        ensures calm { CalmLook (calm self.old) key pid result };

    /// Copies the page's chain, if the page is in a row and still has the version that was seen; if
    /// it isn't or hasn't, fails at the cost of effort.
    fn copy_page(&mut self, pid: Pid, version: Version) -> Result<Chain<A>, CopyFault>
        ensures follows { follows self.old self.new }
        ensures seen { Copied result (seen self.old) (seen self.new) }
        ensures sound { IfOk result IsSound }
        ensures shows { IfOk result (ShowsCopy (shows self.new)) }
        ensures calm { CalmCopy (calm self.old) pid version result };

    /// Makes the page anew that the chain of a page stands for, if the page is in a row and still
    /// has the version that was seen; if it isn't or hasn't, fails at the cost of effort.
    #[tactic(auto, using(crate::proofs::Anew::page_shows, crate::proofs::Anew::page_around))]
    fn consolidated_page(&mut self, pid: Pid, version: Version) -> Result<Base<A>, CopyFault>
        ensures follows { follows self.old self.new }
        ensures seen { Copied result (seen self.old) (seen self.new) }
        ensures shows { IfOk result (λ base. ShowsCopy (shows self.new) (bare base)) }
        ensures calm { CalmAnew (calm self.old) pid version result }
    {
        match self.copy_page(pid, version) {
            Ok(chain) => match consolidate(self.alloc(), &chain) {
                Ok(base) => Ok(base),
                Err(NoMemory) => Err(CopyFault::NoMemory),
            },
            Err(fault) => Err(fault),
        }
    }

    /// Takes the step, or returns why not. The receipt of an accepted step is added to the trail. A
    /// refusal costs effort, and so does an accepted step that changes the tree's shape.
    fn install(&mut self, step: P) -> Result<Receipt, Denied>
        ensures follows { follows self.old self.new }
        ensures seen { Installed (P.proposal step) result (seen self.old) (seen self.new) };

    /// Takes no step, at the cost of one effort.
    fn idle(&mut self)
        ensures follows { follows self.old self.new }
        ensures seen { Idled (seen self.old) (seen self.new) };

    /// Returns the effort that the worker has spent. It stays at 2^64 - 1 once there.
    fn effort(&self) -> u64
        ensures { result ≡ (seen self.now).effort };

    /// Returns how often a refusal ended a call.
    fn ends(&self) -> Ends
        ensures { result ≡ ends_of (seen self.now) };

    /// Returns the receipts of the steps that were taken, in their order, or none where the worker
    /// gives them up.
    fn trail(&self) -> &[Receipt]
        ensures { result.now ≡ kept (seen self.now).trail };

    // laws
    ghost stays: { (s : Self) → follows s s };

    ghost joins: { (a b c : Self) → follows a b → follows b c → follows a c };

    ghost narrows: { (s : Self) (low key end : ℕ) (pairs : List (ℕ × ℕ))
        → low ≤ key → shows s low end pairs → shows s key end (from key pairs) };
}
