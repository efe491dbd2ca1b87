//! Small tables on which the definitions compute. Each key has ten times itself as its value.

ghost use Rattle.std.specs.Prelude.{◌≡◌, [], ◌∷◌};
ghost use Rattle.bw_keys.specs.declared.range.Fence.TheVariants.{Key, Top};
ghost use Rattle.bw_delta.specs.Fence.{fences};
ghost use Rattle.bw_step.specs.declared.receipt.Receipt.TheVariants.{Inserted, Deleted};
ghost use Rattle.bw_step.specs.declared.refused.Refused.TheVariants.{Present, NoKey, BadSeparator, NotSame, TermStands, Leftmost, Worn};
ghost use Rattle.bw_step.specs.declared.view.Stage.TheVariants.{Free, Unposted};
ghost use Rattle.bw_step.specs.Proposals.{insert, delete, consolidate, split, mark};
ghost use Rattle.bw_law.specs.Slots.{chain_in, routes_in, pairs_in, last_number};
ghost use Rattle.bw_law.specs.Tables.{slot_at, slot_fences, joined_pairs, pair_count};
ghost use Rattle.bw_law.specs.Refusals.{refusal};
ghost use Rattle.bw_law.specs.Effects.{after, receipt_of, pid};
ghost use Rattle.bw_law.specs.Runs.{answers};
ghost use Rattle.bw_law.specs.Examples.{two_leaves, three_leaves, leaf, tens, leads, fence, seven_pairs, removal, removing, removed, split_at_leaving, small_table, worn_table, growth, grown};

/// A base that leaves out a key of the page doesn't stand for it.
pub fn a_base_that_lacks_a_key_is_refused()
    ensures { refusal two_leaves (consolidate 1 0 (leaf 3 Top None (3 ∷ 4 ∷ []))) ≡ Some NotSame }
{}

/// An insertion reports the number of the change, and one of a key that is there its value.
pub fn an_insertion_is_numbered_or_answers_the_value()
    ensures fresh { receipt_of two_leaves (insert 1 0 9 90) ≡ Inserted 6 9 90 }
    ensures known { refusal two_leaves (insert 1 0 4 41) ≡ Some (Present 40) }
{}

/// A deletion reports the value that was there.
pub fn a_deletion_gives_the_value_back()
    ensures taken { receipt_of two_leaves (delete 0 0 2) ≡ Deleted 6 2 20 }
    ensures left { pairs_in (slot_at (after two_leaves (delete 0 0 2)) 0) ≡ tens (1 ∷ []) }
    ensures unknown { refusal two_leaves (delete 0 0 0) ≡ Some NoKey }
{}

/// The first page below a page isn't removed, since the route at that page's own low has to stay.
pub fn the_first_page_is_not_marked()
    ensures { refusal three_leaves (mark 0 0 2) ≡ Some Leftmost }
{}

/// A term can't be added while the term of a merged page stands at the same key: that one is
/// deleted first.
pub fn a_standing_term_goes_first()
    ensures { answers three_leaves removal
        ≡ None ∷ None ∷ None ∷ None ∷ Some (TermStands (pid 1)) ∷ None ∷ None ∷ [] }
{}

/// Once its term is taken out, the page that was merged is free, and its id is given again.
pub fn a_removed_page_is_free()
    ensures stage { (slot_at removed 1).stage ≡ Free }
    ensures listed { removed.free ≡ 1 ∷ [] }
    ensures terms { routes_in (slot_at removed 2) ≡ leads ((0, 0) ∷ (3, 4) ∷ (5, 3) ∷ []) }
{}

/// The page that takes in another ends where that one ended.
pub fn a_merge_takes_the_right_link()
    ensures fence { slot_fences (slot_at (removing 2) 0) ≡ fence 0 (Key 5) (Some 3) }
    ensures chain { fences (chain_in (slot_at (removing 2) 0)) ≡ fence 0 (Key 5) (Some 3) }
{}

/// The new page of a split begins at the separator, and ends where the page ended.
pub fn a_split_ends_the_page_at_the_separator()
    ensures lower { slot_fences (slot_at (removing 4) 0) ≡ fence 0 (Key 3) (Some 4) }
    ensures upper { slot_fences (slot_at (removing 4) 4) ≡ fence 3 (Key 5) (Some 3) }
    ensures stage { (slot_at (removing 4) 4).stage ≡ Unposted }
{}

/// The leaves have the same pairs throughout.
pub fn a_removal_keeps_the_pairs()
    ensures before { joined_pairs three_leaves.slots (0 ∷ 1 ∷ 3 ∷ []) ≡ seven_pairs }
    ensures marked { joined_pairs (removing 1).slots (0 ∷ 1 ∷ 3 ∷ []) ≡ seven_pairs }
    ensures merged { joined_pairs (removing 2).slots (0 ∷ 3 ∷ []) ≡ seven_pairs }
    ensures split { joined_pairs (removing 4).slots (0 ∷ 4 ∷ 3 ∷ []) ≡ seven_pairs }
    ensures counted { pair_count removed.slots ≡ 7 }
{}

/// An inner page isn't split at the low of a child that is being removed: that child would be the
/// first below the new page.
pub fn an_inner_page_is_not_split_at_a_leaving_child()
    ensures { answers three_leaves split_at_leaving ≡ None ∷ None ∷ Some BadSeparator ∷ [] }
{}

/// A table that grew from one leaf to two under a root.
pub fn a_table_grows_a_root()
    ensures accepted { answers small_table growth ≡ None ∷ None ∷ None ∷ None ∷ None ∷ [] }
    ensures root { grown.root ≡ 2 }
    ensures level { (slot_at grown 2).level ≡ 1 }
    ensures pairs { joined_pairs grown.slots (0 ∷ 1 ∷ []) ≡ tens (1 ∷ 4 ∷ []) }
{}

/// A slot whose version is used up takes no more steps.
pub fn a_worn_slot_takes_no_step()
    ensures { refusal worn_table (insert 0 last_number 1 10) ≡ Some Worn }
{}
