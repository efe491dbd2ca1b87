//! What a mapping table means, and why each step keeps it. The definitions stand in `specs/`;
//! each function here does nothing, and its contract is a law that holds of every table.
#![tactic(auto)]

pub mod examples;
mod pages;

ghost use Rattle.bw_law.specs.Laws.{StepLaw, RunLaw, NewLaw, RowLaw, WalkLaw, MapLaw, CountLaw, TermLaw, LookLaw, FitLaw, SameLaw};
ghost use Rattle.bw_law.specs.MorePages.{MorePagesLaw, SameAsNewLaw};
ghost use Rattle.bw_law.specs.Numbers.{RefusalLaw};

pub use pages::MAX_PAGES;

/// A lawful and booked table stays so with each accepted step, and its map changes as the step
/// says.
pub fn each_step_keeps_the_law()
    ensures { StepLaw }
{}

/// The table that is made for a good configuration is lawful, booked and empty.
pub fn the_new_table_is_lawful()
    ensures { NewLaw }
{}

/// A lawful and booked table stays so with more pages. It has the slots, the map and the rows that
/// it had, and each search goes the way that it went.
pub fn more_pages_keep_the_law()
    ensures { MorePagesLaw }
{}

/// A new table that gets more pages is the one that is made with them all.
pub fn a_new_table_may_get_its_pages_later()
    ensures { SameAsNewLaw }
{}

/// Whatever steps are proposed to a new table, one after the other, it is lawful and booked after
/// each: a refused one changes nothing.
pub fn each_run_keeps_the_law()
    ensures { RunLaw }
{}

/// For each level up to the root's there is just one row: it begins with the page whose low is 0
/// and goes on by right links. Its ranges partition the keys, it repeats no page, and its members
/// are exactly the pages in a row of the level.
pub fn rows_partition()
    ensures { RowLaw }
{}

/// For each key there is just one walk from the root, and it ends at the leaf in the row whose
/// range holds the key.
pub fn each_search_ends_at_its_leaf()
    ensures { WalkLaw }
{}

/// The pairs joined over the leaf row have rising keys, and are the map.
pub fn the_join_is_the_map()
    ensures { MapLaw }
{}

/// The pairs joined over the leaf row number the insertions less the removals.
pub fn the_book_counts_the_map()
    ensures { CountLaw }
{}

/// For each level below the root's, the routes joined over the row above are exactly the map from
/// the lows of the posted, marked and merged pages of the level to these pages.
pub fn terms_are_the_lows()
    ensures { TermLaw }
{}

/// A refused step is refused for the reason with the least number of those that apply to any of the
/// slots that it names, and a step to which none applies is accepted.
pub fn the_first_refusal_is_the_least()
    ensures { RefusalLaw }
{}

/// The leaf whose range holds a key has the value that the map has there, or none where it has
/// none.
pub fn the_leaf_decides()
    ensures { LookLaw }
{}

/// The depth, the level and the number of entries of each page fit what they are stored in, every
/// id that a page names is that of a slot, and the free list isn't longer than the slots.
pub fn numbers_fit()
    ensures { FitLaw }
{}

/// The test of two pages holds just where they are equal.
pub fn the_same_page_is_equal()
    ensures { SameLaw }
{}
