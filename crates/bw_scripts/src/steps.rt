//! Steps in a script, one function for each kind: the pages with the versions seen, in the order of
//! the step's fields, and at the end the base page if the step has one.

use crate::entries::base;
use crate::line::Unread;
use crate::numbers::{number, page, version};
use bw_delta::Spare;
use bw_step::{
    Consolidate, Delete, Grow, Insert, Mark, Merge, Modify, Split, Step, TermAdd, TermDelete,
};
use std::alloc::Global;

fn insert(alloc: Global, words: &[&str]) -> Result<Step<Global>, Unread> {
    let [pid, seen, key, value] = words else {
        return Err(Unread::Words);
    };
    Ok(Step::Insert(Insert {
        page: page(pid)?,
        seen: version(seen)?,
        key: number(key)?,
        value: number(value)?,
        spare: Spare::new(alloc)?,
    }))
}

fn modify(alloc: Global, words: &[&str]) -> Result<Step<Global>, Unread> {
    let [pid, seen, key, value] = words else {
        return Err(Unread::Words);
    };
    Ok(Step::Modify(Modify {
        page: page(pid)?,
        seen: version(seen)?,
        key: number(key)?,
        value: number(value)?,
        spare: Spare::new(alloc)?,
    }))
}

fn delete(alloc: Global, words: &[&str]) -> Result<Step<Global>, Unread> {
    let [pid, seen, key] = words else {
        return Err(Unread::Words);
    };
    Ok(Step::Delete(Delete {
        page: page(pid)?,
        seen: version(seen)?,
        key: number(key)?,
        spare: Spare::new(alloc)?,
    }))
}

fn consolidate(alloc: Global, words: &[&str]) -> Result<Step<Global>, Unread> {
    let [pid, seen, whole @ ..] = words else {
        return Err(Unread::Words);
    };
    Ok(Step::Consolidate(Consolidate {
        page: page(pid)?,
        seen: version(seen)?,
        base: base(alloc, whole)?,
    }))
}

fn split(alloc: Global, words: &[&str]) -> Result<Step<Global>, Unread> {
    let [pid, seen, separator, upper @ ..] = words else {
        return Err(Unread::Words);
    };
    Ok(Step::Split(Split {
        page: page(pid)?,
        seen: version(seen)?,
        separator: number(separator)?,
        base: base(alloc, upper)?,
        spare: Spare::new(alloc)?,
    }))
}

fn term_add(alloc: Global, words: &[&str]) -> Result<Step<Global>, Unread> {
    let [parent, parent_seen, child, child_seen] = words else {
        return Err(Unread::Words);
    };
    Ok(Step::TermAdd(TermAdd {
        parent: page(parent)?,
        parent_seen: version(parent_seen)?,
        child: page(child)?,
        child_seen: version(child_seen)?,
        spare: Spare::new(alloc)?,
    }))
}

fn grow(alloc: Global, words: &[&str]) -> Result<Step<Global>, Unread> {
    let [child, seen, root @ ..] = words else {
        return Err(Unread::Words);
    };
    Ok(Step::Grow(Grow {
        child: page(child)?,
        seen: version(seen)?,
        base: base(alloc, root)?,
    }))
}

fn mark(alloc: Global, words: &[&str]) -> Result<Step<Global>, Unread> {
    let [pid, seen, parent] = words else {
        return Err(Unread::Words);
    };
    Ok(Step::Mark(Mark {
        page: page(pid)?,
        seen: version(seen)?,
        parent: page(parent)?,
        spare: Spare::new(alloc)?,
    }))
}

fn merge(alloc: Global, words: &[&str]) -> Result<Step<Global>, Unread> {
    let [left, left_seen, pid, page_seen] = words else {
        return Err(Unread::Words);
    };
    Ok(Step::Merge(Merge {
        left: page(left)?,
        left_seen: version(left_seen)?,
        page: page(pid)?,
        page_seen: version(page_seen)?,
        left_spare: Spare::new(alloc)?,
        page_spare: Spare::new(alloc)?,
    }))
}

fn term_delete(alloc: Global, words: &[&str]) -> Result<Step<Global>, Unread> {
    let [parent, parent_seen, child, child_seen] = words else {
        return Err(Unread::Words);
    };
    Ok(Step::TermDelete(TermDelete {
        parent: page(parent)?,
        parent_seen: version(parent_seen)?,
        child: page(child)?,
        child_seen: version(child_seen)?,
        spare: Spare::new(alloc)?,
    }))
}

/// Reads a step.
pub(crate) fn step(alloc: Global, words: &[&str]) -> Result<Step<Global>, Unread> {
    let Some((kind, rest)) = words.split_first() else {
        return Err(Unread::Words);
    };
    match *kind {
        "insert" => insert(alloc, rest),
        "modify" => modify(alloc, rest),
        "delete" => delete(alloc, rest),
        "consolidate" => consolidate(alloc, rest),
        "split" => split(alloc, rest),
        "term_add" => term_add(alloc, rest),
        "grow" => grow(alloc, rest),
        "mark" => mark(alloc, rest),
        "merge" => merge(alloc, rest),
        "term_delete" => term_delete(alloc, rest),
        _ => Err(Unread::Words),
    }
}
