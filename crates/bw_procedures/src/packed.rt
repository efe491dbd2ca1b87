//! A trail that keeps each receipt in few bytes.

ghost use Rattle.std.specs.Prelude.{◌≡◌, ℕ, ◌+◌, ◌*◌, ◌<◌, ◌≤◌, [], ◌∷◌, ◌++◌, true, false};
ghost use Rattle.std.specs.Prelude.{if◌then◌else◌, IfOk, IfSome, None, OnOk, length, reverse};
ghost use Rattle.std.specs.Prelude.{drop, option_to_list, vec_capacity, vec_len};
ghost use Rattle.bw_step.specs.declared.receipt.Kind.TheVariants as kinds;
ghost use Rattle.bw_step.specs.declared.receipt.Receipt.TheVariants as receipts;
ghost use Rattle.bw_procedures.specs.Packed.{below, receipt_by, told_by, top};
ghost use Rattle.bw_procedures.specs.Packed.{number_before, wholes_before, words_before};
ghost use Rattle.bw_procedures.specs.Packed.{HasMemory, IsKept, IsMarked, IsPair, IsWithin};
ghost use Rattle.bw_procedures.specs.Packed.{KeepsMemory, TakesNone, TakesOne};

use crate::trail::Trail;
use bw_delta::NoMemory;
use bw_keys::{Key, Pid};
use bw_step::{Kind, Receipt};
use std::alloc::Global;
use std::marker::Model;
use std::mem;

/// For how many receipts memory is asked for at once.
const BATCH: usize = 64;

/// What a mark stands for: the receipt of a change or a look, whose key and values are words, or one
/// that is kept whole.
#[derive(Clone, Copy)]
pub(crate) enum Form {
    Inserted,
    Deleted,
    Modified,
    Found,
    Missed,
    Whole,
}

/// A receipt without its words, and whether the next one is of a page's consolidation.
#[derive(Clone, Copy)]
pub(crate) struct Mark {
    pub form: Form,
    pub is_consolidated: bool,
    /// By how much its number is more than the one before.
    pub step: u16,
    /// The page that was consolidated.
    pub page: Pid,
}

/// Returns by how much a number is more than the one before, unless that is too much for a mark.
#[inline(always)]
fn step_between(before: u64, number: u64) -> Option<u16>
    ensures { IfSome result (λ step. number ≡ before + step) }
{
    let step = number.checked_sub(before)?;
    if step > 0xffff {
        return None;
    }
    Some(step as u16)
}

/// Receipts as marks and words of 8 bytes each. The words of a mark are the receipt's key and values,
/// or the number before a receipt that is kept whole.
#[derive(Drop)]
pub(crate) struct Packing {
    pub marks: Vec<Mark>,
    pub words: Vec<u64>,
    pub wholes: Vec<Receipt>,
    /// The number of the last mark.
    pub number: u64,
}

impl Packing {
    #[tactic(auto, unfolding(crate::specs::Packed::told))]
    #[inline(always)]
    fn new(machine: Global) -> Packing
        ensures told { told_by result ≡ [] }
        ensures within { IsWithin 0 result }
        ensures memory { HasMemory 0 result }
    {
        Packing {
            marks: Vec::new(machine),
            words: Vec::new(machine),
            wholes: Vec::new(machine),
            number: 0,
        }
    }

    /// Sees that there is memory for `count` receipts of any kind.
    fn reserve(&mut self, count: usize) -> Result<(), NoMemory>
        ensures told { told_by self.new ≡ told_by self.old }
        ensures within { (n : ℕ) → IsWithin n self.old → IsWithin n self.new }
        ensures memory { OnOk result (HasMemory count self.new) }
        ensures kept { KeepsMemory self.old self.new }
    {
        let Some(words) = count.checked_mul(3) else {
            return Err(NoMemory);
        };
        self.marks.reserve(count.saturating_sub(self.marks.len()))?;
        self.words.reserve(words.saturating_sub(self.words.len()))?;
        self.wholes
            .reserve(count.saturating_sub(self.wholes.len()))?;
        Ok(())
    }

    /// Forgets the receipts.
    #[tactic(auto, unfolding(crate::specs::Packed::told))]
    fn clear(&mut self)
        ensures told { told_by self.new ≡ [] }
        ensures within { IsWithin 0 self.new }
        ensures kept { KeepsMemory self.old self.new }
    {
        self.marks.clear();
        self.words.clear();
        self.wholes.clear();
    }

    /// Adds the mark of a receipt with this number, if that isn't too far from the one before.
    #[inline(always)]
    fn mark(&mut self, form: Form, number: u64) -> bool
        requires { vec_len self.old.marks < vec_capacity self.old.marks }
        ensures marked { result ≡ true → IsMarked form number self.old self.new }
        ensures unmarked { result ≡ false → self.new ≡ self.old }
    {
        let Some(step) = step_between(self.number, number) else {
            return false;
        };
        self.marks.push_reserved(Mark {
            form,
            is_consolidated: false,
            step,
            page: Pid(0),
        });
        self.number = number;
        true
    }

    /// Adds a look that found nothing, if its number isn't too far from the one before.
    #[tactic(auto, using(crate::proofs::Packing::miss_told))]
    #[inline(always)]
    fn add_miss(&mut self, count: usize, number: u64, key: Key) -> bool
        requires within { IsWithin count self.old }
        requires memory { HasMemory (count + 1) self.old }
        ensures told { told_by self.new ≡ (if result
            then told_by self.old ++ receipts.Looked number key None ∷ []
            else told_by self.old) }
        ensures within { TakesOne self.old self.new }
        ensures kept { KeepsMemory self.old self.new }
        ensures unmarked { result ≡ false → self.new ≡ self.old }
    {
        if !self.mark(Form::Missed, number) {
            return false;
        }
        self.words.push_reserved(key);
        true
    }

    /// Adds a receipt with a key and a value, if its number isn't too far from the one before.
    #[tactic(auto, using(crate::proofs::Packing::pair_told))]
    #[inline(always)]
    fn add_pair(&mut self, count: usize, form: Form, number: u64, key: Key, value: u64) -> bool
        requires form { IsPair form }
        requires within { IsWithin count self.old }
        requires memory { HasMemory (count + 1) self.old }
        ensures told { told_by self.new ≡ (if result
            then told_by self.old ++ receipt_by form number (value ∷ key ∷ []) []
            else told_by self.old) }
        ensures within { TakesOne self.old self.new }
        ensures kept { KeepsMemory self.old self.new }
        ensures unmarked { result ≡ false → self.new ≡ self.old }
    {
        if !self.mark(form, number) {
            return false;
        }
        self.words.push_reserved(key);
        self.words.push_reserved(value);
        true
    }

    /// Adds the change of a value, if its number isn't too far from the one before.
    #[tactic(auto, using(crate::proofs::Packing::modified_told))]
    #[inline(always)]
    fn add_modified(&mut self, count: usize, number: u64, key: Key, old: u64, value: u64) -> bool
        requires within { IsWithin count self.old }
        requires memory { HasMemory (count + 1) self.old }
        ensures told { told_by self.new ≡ (if result
            then told_by self.old ++ receipts.Modified number key old value ∷ []
            else told_by self.old) }
        ensures within { TakesOne self.old self.new }
        ensures kept { KeepsMemory self.old self.new }
        ensures unmarked { result ≡ false → self.new ≡ self.old }
    {
        if !self.mark(Form::Modified, number) {
            return false;
        }
        self.words.push_reserved(key);
        self.words.push_reserved(old);
        self.words.push_reserved(value);
        true
    }

    /// Notes the consolidation of a page at the last mark, if that has none yet.
    #[tactic(auto, using(crate::proofs::Packing::consolidation_told))]
    #[inline(always)]
    fn add_consolidation(&mut self, page: Pid) -> bool
        ensures told { told_by self.new ≡ (if result
            then told_by self.old ++ receipts.Shaped kinds.Consolidate page None ∷ []
            else told_by self.old) }
        ensures within { TakesOne self.old self.new }
        ensures kept { KeepsMemory self.old self.new }
        ensures unmarked { result ≡ false → TakesNone self.old self.new }
    {
        let Some(mark) = self.marks.pop() else {
            return false;
        };
        if mark.is_consolidated {
            self.marks.push_reserved(mark);
            return false;
        }
        self.marks.push_reserved(Mark {
            form: mark.form,
            is_consolidated: true,
            step: mark.step,
            page,
        });
        true
    }

    /// Adds a receipt in few bytes, if it can.
    #[inline(always)]
    fn add_brief(&mut self, count: usize, receipt: Receipt) -> bool
        requires within { IsWithin count self.old }
        requires memory { HasMemory (count + 1) self.old }
        ensures told { told_by self.new ≡ (if result
            then told_by self.old ++ receipt ∷ []
            else told_by self.old) }
        ensures within { TakesOne self.old self.new }
        ensures kept { KeepsMemory self.old self.new }
        ensures unmarked { result ≡ false → TakesNone self.old self.new }
    {
        match receipt {
            Receipt::Inserted { number, key, value } => {
                self.add_pair(count, Form::Inserted, number, key, value)
            }
            Receipt::Deleted { number, key, value } => {
                self.add_pair(count, Form::Deleted, number, key, value)
            }
            Receipt::Modified {
                number,
                key,
                old,
                value,
            } => self.add_modified(count, number, key, old, value),
            Receipt::Looked {
                at,
                key,
                found: Some(value),
            } => self.add_pair(count, Form::Found, at, key, value),
            Receipt::Looked {
                at,
                key,
                found: None,
            } => self.add_miss(count, at, key),
            Receipt::Shaped {
                kind: Kind::Consolidate,
                page,
                other: None,
            } => self.add_consolidation(page),
            Receipt::Shaped { .. } => false,
        }
    }

    /// Adds a receipt as it is.
    #[tactic(auto, using(crate::proofs::Packing::whole_told))]
    #[cold]
    #[inline(never)]
    fn add_whole(&mut self, count: usize, receipt: Receipt)
        requires within { IsWithin count self.old }
        requires memory { HasMemory (count + 1) self.old }
        ensures told { told_by self.new ≡ told_by self.old ++ receipt ∷ [] }
        ensures within { TakesOne self.old self.new }
        ensures kept { KeepsMemory self.old self.new }
    {
        self.words.push_reserved(self.number);
        self.marks.push_reserved(Mark {
            form: Form::Whole,
            is_consolidated: false,
            step: 0,
            page: Pid(0),
        });
        self.wholes.push_reserved(receipt);
        self.number = number_of(receipt, self.number);
    }

    /// Returns the receipts, in their order.
    fn unpack(&self, machine: Global) -> Result<Vec<Receipt>, NoMemory>
        ensures { IfOk result (λ v. v.items ≡ told_by self.now) }
    {
        let mut receipts = Vec::with_capacity(machine, self.marks.len())?;
        let mut marks = self.marks.as_slice();
        let mut rest = Rest {
            number: self.number,
            words: self.words.as_slice(),
            wholes: self.wholes.as_slice(),
        };
        'marks: while let Some((mark, before)) = marks.split_last() {
            if mark.is_consolidated {
                receipts.push(Receipt::Shaped {
                    kind: Kind::Consolidate,
                    page: mark.page,
                    other: None,
                })?;
            }
            if let Some(receipt) = rest.receipt(mark.form) {
                receipts.push(receipt)?;
            }
            rest = rest.before(mark.form, mark.step);
            marks = before;
        }
        receipts.reverse();
        Ok(receipts)
    }
}

/// Returns the number of a receipt, or the one before where it has none.
fn number_of(receipt: Receipt, before: u64) -> u64 {
    match receipt {
        Receipt::Inserted { number, .. }
        | Receipt::Deleted { number, .. }
        | Receipt::Modified { number, .. } => number,
        Receipt::Looked { at, .. } => at,
        Receipt::Shaped { .. } => before,
    }
}

/// What marks are read with, from the last on.
#[derive(Clone, Copy)]
struct Rest<'p> {
    number: u64,
    words: &'p [u64],
    wholes: &'p [Receipt],
}

/// Returns the last word, or 0 without any, and the words before it.
fn pop(words: &[u64]) -> (u64, &[u64])
    ensures top { result.0 ≡ top (reverse words.now) }
    ensures below { reverse result.1.now ≡ below (reverse words.now) }
{
    match words.split_last() {
        Some((word, before)) => (*word, before),
        None => (0, words),
    }
}

impl<'p> Rest<'p> {
    /// Returns the receipt of the last mark.
    fn receipt(self, form: Form) -> Option<Receipt>
        ensures { option_to_list result
            ≡ receipt_by form self.entry.number (reverse self.entry.words.now)
            (reverse self.entry.wholes.now) }
    {
        let number = self.number;
        let (last, words) = pop(self.words);
        let (second, words) = pop(words);
        match form {
            Form::Inserted => Some(Receipt::Inserted {
                number,
                key: second,
                value: last,
            }),
            Form::Deleted => Some(Receipt::Deleted {
                number,
                key: second,
                value: last,
            }),
            Form::Modified => Some(Receipt::Modified {
                number,
                key: pop(words).0,
                old: second,
                value: last,
            }),
            Form::Found => Some(Receipt::Looked {
                at: number,
                key: second,
                found: Some(last),
            }),
            Form::Missed => Some(Receipt::Looked {
                at: number,
                key: last,
                found: None,
            }),
            Form::Whole => self.wholes.last().copied(),
        }
    }

    /// Returns what is left without the last mark.
    fn before(self, form: Form, step: u16) -> Rest<'p>
        ensures number { result.number
            ≡ number_before form step self.entry.number (reverse self.entry.words.now) }
        ensures words { reverse result.words.now
            ≡ words_before form (reverse self.entry.words.now) }
        ensures wholes { reverse result.wholes.now
            ≡ wholes_before form (reverse self.entry.wholes.now) }
    {
        let number = self.number.saturating_sub(u64::from(step));
        let (last, one) = pop(self.words);
        let (_, two) = pop(one);
        match form {
            Form::Inserted | Form::Deleted | Form::Found => Rest {
                number,
                words: two,
                wholes: self.wholes,
            },
            Form::Modified => Rest {
                number,
                words: pop(two).1,
                wholes: self.wholes,
            },
            Form::Missed => Rest {
                number,
                words: one,
                wholes: self.wholes,
            },
            Form::Whole => Rest {
                number: last,
                words: one,
                wholes: without_last(self.wholes),
            },
        }
    }
}

/// Returns the receipts before the last one.
fn without_last(wholes: &[Receipt]) -> &[Receipt]
    ensures { reverse result.now ≡ drop 1 (reverse wholes.now) }
{
    match wholes.split_last() {
        Some((_, before)) => before,
        None => wholes,
    }
}

/// A trail that keeps each receipt in few bytes: 16 or 24 for a look, 24 for an insertion or a
/// deletion, 32 for another value, and none for the consolidation behind one of these.
/// [`unpack`](Packed::unpack) returns the receipts. It asks for memory as if each were the longest,
/// and touches only what it takes.
#[derive(Drop)]
pub struct Packed {
    packing: Packing,
    count: usize,
    /// For how many more receipts there is memory.
    spare: usize,
}

impl Model for Packed {
    ghost use Rattle.std.specs.Prelude.{◌+◌};
    ghost use Rattle.bw_procedures.specs.Packed.{told_by, IsKept, PackedValue};

    ghost Value = { PackedValue };

    ghost view = { λ p. record { receipts = told_by p.packing; room = p.count + p.spare } };

    ghost invariant = { λ p. IsKept p.count p.spare p.packing };
}

impl Packed {
    /// Returns the receipts, in their order, in the machine's memory.
    pub fn unpack(&self, machine: Global) -> Result<Vec<Receipt>, NoMemory>
        ensures { IfOk result (λ v. v.items ≡ self.now.receipts) }
    {
        self.packing.unpack(machine)
    }

    /// Sees that there is memory for a batch of receipts, or for more.
    #[cold]
    #[inline(never)]
    fn grow(&mut self, more: usize) -> Result<(), NoMemory>
        ensures receipts { self.new.receipts ≡ self.old.receipts }
        ensures room { OnOk result (length self.new.receipts + more ≤ self.new.room) }
    {
        let more = more.max(BATCH);
        let Some(room) = self.count.checked_add(more) else {
            return Err(NoMemory);
        };
        self.packing.reserve(room)?;
        self.spare = more;
        Ok(())
    }
}

impl Trail for Packed {
    ghost added = { λ p. p.receipts };

    ghost kept = { λ receipts. [] };

    ghost room = { λ p. p.room };

    #[inline(always)]
    fn empty(machine: Global) -> Packed {
        Packed {
            packing: Packing::new(machine),
            count: 0,
            spare: 0,
        }
    }

    #[inline(always)]
    fn count(&self) -> usize {
        self.count
    }

    /// Returns none, as they aren't kept in this form.
    #[inline(always)]
    fn receipts(&self) -> &[Receipt] {
        &[]
    }

    #[inline(always)]
    fn make_room(&mut self, more: usize) -> Result<(), NoMemory> {
        if more <= self.spare {
            return Ok(());
        }
        self.grow(more)
    }

    #[inline(always)]
    fn add(&mut self, receipt: Receipt) {
        if !self.packing.add_brief(self.count, receipt) {
            self.packing.add_whole(self.count, receipt);
        }
        self.count += 1;
        self.spare -= 1;
    }

    fn take(&mut self) -> Packed {
        let empty = Packed::empty(*self.packing.marks.allocator());
        mem::replace(self, empty)
    }

    fn forget(&mut self) {
        self.packing.clear();
        self.spare += self.count;
        self.count = 0;
    }
}
