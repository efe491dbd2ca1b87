//! Questions that a reader asks of the published table.

ghost use Rattle.std.specs.Prelude.{◌≡◌};

use bw_delta::NoMemory;
use bw_keys::{Fence, Key};
use bw_step::Look;
use bw_table::Table;
use std::alloc::Global;

/// A question that a table answers by itself: a call of it waits for nothing.
pub trait Question: Drop {
    ghost use Rattle.bw_law.specs.Tables.{TableValue};

    type Answer;

    // what the answer of a table says
    ghost answers: { Self → TableValue → Self.Answer → Type 0 };

    fn ask(self, table: &Table<Global>) -> Self::Answer
        ensures { answers self table.now result };
}

/// What does the map have at the key, after how many changes?
#[derive(Drop)]
pub struct LookAt(pub Key);

impl Question for LookAt {
    ghost use Rattle.bw_snap.specs.Answers.{IsLookAt};

    type Answer = Look;

    ghost answers = { λ question table look. IsLookAt table question.0 look };

    #[inline(always)]
    fn ask(self, table: &Table<Global>) -> Look {
        table.look_up(self.0)
    }
}

/// What does the map have at each of the keys?
#[derive(Drop)]
pub struct GetMany<const N: usize>(pub [Key; N]);

impl<const N: usize> Question for GetMany<N> {
    ghost use Rattle.bw_snap.specs.Answers.{AreMapAt};

    type Answer = [Option<u64>; N];

    ghost answers = { λ question table found. AreMapAt table question.0 found };

    #[inline(always)]
    fn ask(self, table: &Table<Global>) -> [Option<u64>; N] {
        table.get_many(self.0)
    }
}

/// Which pair is the first at the key or past it?
#[derive(Drop)]
pub struct NextAt(pub Key);

impl Question for NextAt {
    ghost use Rattle.bw_snap.specs.Answers.{IsFirstFrom};

    type Answer = Option<(Key, u64)>;

    ghost answers = { λ question table found. IsFirstFrom table question.0 found };

    fn ask(self, table: &Table<Global>) -> Option<(Key, u64)> {
        table.next_at(self.0)
    }
}

/// Which pair is the last at the key or before it?
#[derive(Drop)]
pub struct PreviousAt(pub Key);

impl Question for PreviousAt {
    ghost use Rattle.bw_snap.specs.Answers.{IsLastUpTo};

    type Answer = Option<(Key, u64)>;

    ghost answers = { λ question table found. IsLastUpTo table question.0 found };

    fn ask(self, table: &Table<Global>) -> Option<(Key, u64)> {
        table.previous_at(self.0)
    }
}

/// How many changes of the map were there?
#[derive(Drop)]
pub struct Number;

impl Question for Number {
    ghost use Rattle.bw_law.specs.Tables.{number_of};

    type Answer = u64;

    ghost answers = { λ _ table number. number ≡ number_of table.book };

    fn ask(self, table: &Table<Global>) -> u64 {
        table.number()
    }
}

/// How many pairs has the map?
#[derive(Drop)]
pub struct Len;

impl Question for Len {
    ghost use Rattle.bw_table.specs.Orders.{HasPairs};

    type Answer = u64;

    ghost answers = { λ _ table len. HasPairs table len };

    fn ask(self, table: &Table<Global>) -> u64 {
        let book = table.book();
        book.inserted - book.removed
    }
}

/// Which pairs are the first from the low on and below the high, up to the limit? The list is filled
/// with them, or comes back as it was where memory is refused.
#[derive(Drop)]
pub struct Listing {
    pub low: Key,
    pub high: Fence,
    pub limit: usize,
    pub list: Vec<(Key, u64)>,
}

/// A list, and whether it was filled.
#[derive(Drop)]
pub struct Listed {
    pub list: Vec<(Key, u64)>,
    pub done: Result<(), NoMemory>,
}

impl Question for Listing {
    ghost use Rattle.bw_snap.specs.Answers.{Lists};

    type Answer = Listed;

    ghost answers = { λ question table listed. Lists table question listed };

    fn ask(self, table: &Table<Global>) -> Listed {
        let mut list = self.list;
        let done = table.list_range(self.low, self.high, self.limit, &mut list);
        Listed { list, done }
    }
}
