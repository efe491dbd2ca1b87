//! What becomes of a worker's receipts: they are kept, or given up.

ghost use Rattle.std.specs.Prelude.{◌≡◌, ◌^◌, ◌-◌, [], length, vec_capacity};

use crate::past::Past;
use bw_delta::NoMemory;
use bw_step::Receipt;
use std::alloc::Global;
use std::mem;

/// What becomes of the receipts of a worker's steps. A list keeps each of them, for the auditor,
/// [`Packed`](crate::Packed) what it takes to make such a list, and [`GivenUp`] none. What contracts
/// say of a worker's receipts is the same for all.
pub trait Trail: Drop {
    ghost use Rattle.std.specs.Prelude.{◌≡◌, ◌+◌, ◌<◌, ◌≤◌, ℕ, List, [], ◌∷◌, ◌++◌, OnOk, length};
    ghost use Rattle.bw_step.specs.declared.receipt.Receipt.{Receipt as Reported};

    // all receipts that were added, in their order
    ghost added: { Self → List Reported };

    // which receipts of such a list are kept as they are: all of them, or none
    ghost kept: { List Reported → List Reported };

    // how many receipts there is room for
    ghost room: { Self → ℕ };

    /// Returns a trail without receipts. Those that it keeps will lie in the machine's memory.
    fn empty(machine: Global) -> Self
        ensures { added result ≡ [] };

    /// Returns the number of receipts that were added.
    fn count(&self) -> usize
        ensures { result ≡ length (added self.now) };

    /// Returns the receipts that are kept as they are, in their order.
    fn receipts(&self) -> &[Receipt]
        ensures { result.now ≡ kept (added self.now) };

    /// Makes room for `more` receipts. Fails for want of memory, with the trail as it was.
    fn make_room(&mut self, more: usize) -> Result<(), NoMemory>
        ensures added { added self.new ≡ added self.old }
        ensures room { OnOk result (length (added self.new) + more ≤ room self.new) };

    /// Adds a receipt.
    fn add(&mut self, receipt: Receipt)
        requires { length (added self.old) < room self.old }
        ensures added { added self.new ≡ added self.old ++ receipt ∷ [] }
        ensures room { room self.new ≡ room self.old };

    /// Takes the receipts out, and goes on without one in the same memory region.
    fn take(&mut self) -> Self
        ensures taken { added result ≡ added self.old }
        ensures rest { added self.new ≡ [] };

    /// Forgets the receipts. The trail keeps its memory.
    fn forget(&mut self)
        ensures added { added self.new ≡ [] }
        ensures room { room self.new ≡ room self.old };
}

impl Trail for Vec<Receipt> {
    ghost added = { λ v. v.items };

    ghost kept = { λ receipts. receipts };

    ghost room = { λ v. vec_capacity v };

    #[inline(always)]
    fn empty(machine: Global) -> Vec<Receipt> {
        Vec::new(machine)
    }

    #[inline(always)]
    fn count(&self) -> usize {
        self.len()
    }

    #[inline(always)]
    fn receipts(&self) -> &[Receipt] {
        self
    }

    #[inline(always)]
    fn make_room(&mut self, more: usize) -> Result<(), NoMemory> {
        self.reserve(more)?;
        Ok(())
    }

    #[inline(always)]
    fn add(&mut self, receipt: Receipt) {
        self.push_reserved(receipt);
    }

    fn take(&mut self) -> Vec<Receipt> {
        let empty = Vec::new(*self.allocator());
        mem::replace(self, empty)
    }

    #[inline(always)]
    fn forget(&mut self) {
        self.clear();
    }
}

/// Gives each receipt up as it comes, and only counts them: for a worker whose receipts nobody will
/// ask for. It takes no memory beyond itself.
#[derive(Drop)]
pub struct GivenUp {
    count: usize,
    past: Past,
    ghost counted: { count ≡ length past.receipts },
}

impl GivenUp {
    /// Returns a trail without receipts.
    #[inline(always)]
    pub fn new() -> GivenUp
        ensures { result.past.receipts ≡ [] }
    {
        GivenUp {
            count: 0,
            past: Past::empty(),
        }
    }
}

impl Trail for GivenUp {
    ghost added = { λ g. g.past.receipts };

    ghost kept = { λ receipts. [] };

    ghost room = { λ g. 2 ^ 64 - 1 };

    #[inline(always)]
    fn empty(_machine: Global) -> GivenUp {
        GivenUp::new()
    }

    #[inline(always)]
    fn count(&self) -> usize {
        self.count
    }

    #[inline(always)]
    fn receipts(&self) -> &[Receipt] {
        &[]
    }

    /// Asks for no memory. Fails where the count would go past 2^64 - 1.
    #[inline(always)]
    fn make_room(&mut self, more: usize) -> Result<(), NoMemory> {
        match self.count.checked_add(more) {
            Some(_) => Ok(()),
            None => Err(NoMemory),
        }
    }

    #[inline(always)]
    fn add(&mut self, receipt: Receipt) {
        self.past = Past::with(&self.past, &receipt);
        self.count += 1;
    }

    #[inline(always)]
    fn take(&mut self) -> GivenUp {
        mem::replace(self, GivenUp::new())
    }

    #[inline(always)]
    fn forget(&mut self) {
        *self = GivenUp::new();
    }
}
