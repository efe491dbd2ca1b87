ghost use Rattle.std.specs.Prelude.{◌≡◌, ◌+◌, ◌-◌, ◌<◌, ◌^◌};
ghost use Rattle.bw_law.specs.Tables.{number_of, pair_count};
ghost use Rattle.bw_table.specs.Orders.{HasPairs};

use crate::table::Table;
use bw_step::Book;
use std::alloc::Allocator;

impl<A: Allocator + Copy> Table<A> {
    /// Returns the numbers of keys that were inserted, removed and modified. The map has as many pairs
    /// as were inserted and not removed.
    #[inline(always)]
    pub fn book(&self) -> Book
        ensures book { result ≡ self.now.book }
        ensures booked { result.inserted ≡ result.removed + pair_count self.now.slots }
        ensures pairs { HasPairs self.now (result.inserted - result.removed) }
    {
        self.book
    }
}

/// How many changes of the map the book counts.
pub(crate) fn number_of(book: Book) -> u64
    requires { number_of book < 2 ^ 64 }
    ensures { result ≡ number_of book }
{
    book.inserted + book.removed + book.modified
}
