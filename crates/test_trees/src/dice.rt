//! Steps drawn by a generator: most fit the tree as it was seen, and the rest are forged.

use bw_chain::{consolidate, halve};
use bw_delta::{Base, Spare};
use bw_keys::{Fence, Key, Pid, Version, Wished};
use bw_step::{Consolidate, Go, Grow, Mark, Merge, Split, Stage, Step, TermAdd, TermDelete, View};
use bw_tree::Shared;
use rand_core::Rng;
use rand_pcg::Pcg32;
use std::alloc::Global;
use std::process::Abort;

/// The number of keys in drawn steps.
const KEYS: u32 = 256;

/// The number of ids in drawn steps: those of the slots, and two past the end.
const IDS: u32 = 66;

/// The number of pages that a search passes before it gives up, as others may change the tree
/// meanwhile.
const LONGEST_WALK: u32 = 1000;

/// Returns a number below the bound, or 0 if there is none.
fn below(rng: &mut Pcg32, bound: u32) -> u32 {
    rng.next_u32().checked_rem(bound).unwrap_or(0)
}

fn spare<R: Abort>(rt: &R, alloc: Global) -> Spare<Global> {
    Spare::new(alloc).expect(rt, "memory for a record")
}

/// Returns the page in the row of the level whose range holds the key, as a search finds it.
fn holder<S: Shared<Global, Step<Global>>>(tree: &S, key: Key, level: u8) -> Option<View> {
    let mut place = tree.root();
    for _ in 0..LONGEST_WALK {
        match tree.visit(place, key, level).go {
            Go::Right(next) | Go::Down(next) => place = next,
            Go::Here(view) => return Some(view),
            Go::Gone => return None,
        }
    }
    None
}

/// Returns the first page from a drawn id on that is at the stage.
fn at_stage<S: Shared<Global, Step<Global>>>(
    rng: &mut Pcg32,
    tree: &S,
    stage: Stage,
) -> Option<View> {
    let first = below(rng, IDS);
    for turn in 0..IDS {
        match tree.peek(Pid(first.wrapping_add(turn) % IDS)) {
            Some(view) if view.stage == stage => return Some(view),
            _ => {}
        }
    }
    None
}

/// Returns the page and its version. Now and then, and if there is no page, returns others.
fn named(rng: &mut Pcg32, view: Option<View>) -> (Pid, Version) {
    let any = Pid(below(rng, IDS));
    let Some(View { pid, version, .. }) = view else {
        return (any, Version(0));
    };
    match below(rng, 32) {
        0 => (any, version),
        1 => (pid, Version(version.0.wrapping_sub(1))),
        2 => (pid, Version(rng.next_u64())),
        _ => (pid, version),
    }
}

/// Returns a base that lists what the page's chain does, or an empty leaf if the page isn't as it was
/// seen.
fn base_of<R: Abort, S: Shared<Global, Step<Global>>>(
    rt: &R,
    alloc: Global,
    tree: &S,
    (page, seen): (Pid, Version),
) -> Base<Global> {
    match tree.copy_page(alloc, page, seen) {
        Ok(chain) => consolidate(alloc, &chain).expect(rt, "memory for a base"),
        Err(_) => Base::empty(alloc),
    }
}

/// Returns a split of the page in half, or now and then at a drawn key.
fn split<R: Abort, S: Shared<Global, Step<Global>>>(
    rt: &R,
    alloc: Global,
    rng: &mut Pcg32,
    tree: &S,
    (page, seen): (Pid, Version),
) -> Step<Global> {
    let whole = base_of(rt, alloc, tree, (page, seen));
    let (middle, base) = match halve(alloc, &whole) {
        Ok(half) => half,
        Err(_) => (whole.low, whole),
    };
    let any = Key::from(below(rng, KEYS));
    Step::Split(Split {
        page,
        seen,
        separator: if below(rng, 16) == 0 { any } else { middle },
        base,
        spare: spare(rt, alloc),
    })
}

/// Returns a new root over the present one and the child, or an empty leaf if these make no page.
fn grow<S: Shared<Global, Step<Global>>>(
    alloc: Global,
    tree: &S,
    low: Key,
    (child, seen): (Pid, Version),
) -> Step<Global> {
    let routes = [(0, tree.root().pid), (low, child)];
    let base = match Base::inner(alloc, 0, Fence::Top, None, &routes) {
        Ok(base) => base,
        Err(_) => Base::empty(alloc),
    };
    Step::Grow(Grow { child, seen, base })
}

/// Returns a step of a page at a stage, and of its parent or its left neighbour.
fn of_stage<R: Abort, S: Shared<Global, Step<Global>>>(
    rt: &R,
    alloc: Global,
    rng: &mut Pcg32,
    tree: &S,
    stage: Stage,
) -> Step<Global> {
    let view = at_stage(rng, tree, stage);
    let (low, level) = view.map_or((0, 0), |view| (view.low, view.level));
    let (child, child_seen) = named(rng, view);
    let (parent, parent_seen) = named(rng, holder(tree, low, level.saturating_add(1)));
    let (left, left_seen) = named(rng, holder(tree, low.saturating_sub(1), level));
    let spare = spare(rt, alloc);
    match stage {
        Stage::Unposted if level == tree.root().level => {
            grow(alloc, tree, low, (child, child_seen))
        }
        Stage::Unposted => Step::TermAdd(TermAdd {
            parent,
            parent_seen,
            child,
            child_seen,
            spare,
        }),
        Stage::Posted => Step::Mark(Mark {
            page: child,
            seen: child_seen,
            parent,
            spare,
        }),
        Stage::Marked => Step::Merge(Merge {
            left,
            left_seen,
            page: child,
            page_seen: child_seen,
            left_spare: spare,
            page_spare: self::spare(rt, alloc),
        }),
        _ => Step::TermDelete(TermDelete {
            parent,
            parent_seen,
            child,
            child_seen,
            spare,
        }),
    }
}

/// Returns a step of a drawn kind.
pub(crate) fn drawn_step<R: Abort, S: Shared<Global, Step<Global>>>(
    rt: &R,
    alloc: Global,
    rng: &mut Pcg32,
    tree: &S,
) -> Step<Global> {
    let key = Key::from(below(rng, KEYS));
    let kind = below(rng, 32);
    let is_inner = kind >= 15 && below(rng, 4) == 0;
    let (page, seen) = named(rng, holder(tree, key, u8::from(is_inner)));
    match kind {
        0..=14 => {
            let wished = match kind {
                0..=9 => Wished::Put(rng.next_u64()),
                10..=12 => Wished::Delete,
                _ => Wished::Set(rng.next_u64()),
            };
            Step::of_wish(page, seen, key, wished, true, spare(rt, alloc))
        }
        15..=18 => Step::Consolidate(Consolidate {
            page,
            seen,
            base: base_of(rt, alloc, tree, (page, seen)),
        }),
        19..=22 => split(rt, alloc, rng, tree, (page, seen)),
        23..=25 => of_stage(rt, alloc, rng, tree, Stage::Unposted),
        26 => of_stage(rt, alloc, rng, tree, Stage::Posted),
        27..=29 => of_stage(rt, alloc, rng, tree, Stage::Marked),
        _ => of_stage(rt, alloc, rng, tree, Stage::Merged),
    }
}
